// The factory records of a file, which are read in place, and its site records, which are told.
ghost use Rattle.std.specs.Prelude.{◌≡◌, ◌+◌, ◌<◌, length};
ghost use Rattle.terms.specs.Refusals.{asked, done};
ghost use Rattle.records.specs.Groups.{FactoryRead, SiteRead, SiteTold, after_image_questions};

use crate::Fault;
use image::store::ImageStore;
use layout::{Group, fact_record};
use stores::store::Store;
use terms::refusal::Refusal;

// A factory record after the sound part is refused: it is cut, its fact is unlawful, or the fact stands before it.
fn refuse_factory(bytes: &[u8]) -> Result<(), Refusal>
    ensures { done result ≡ asked (after_image_questions bytes.now) tt }
{
    if !Group::Factory.marks(bytes) {
        return Ok(());
    }
    let fact = fact_record(bytes)?;
    fact.check()?;
    Err(Refusal::FactNotNew)
}

// The factory records at the front of the bytes as an image; the first of them has the given number.
pub(crate) fn read_factory(bytes: &[u8], first: usize) -> Result<ImageStore<'_>, Fault>
    requires { first + length bytes.now < 32768 }
    ensures { FactoryRead bytes.now first result }
{
    let image = ImageStore::open(bytes);
    let count = image.count();
    let rest = &bytes[Group::Factory.size() * count..];
    refuse_factory(rest).map_err(|refusal| Fault {
        refusal,
        index: first + count,
    })?;
    Ok(image)
}

// Tells the fact of the site record at the front of the bytes.
fn tell_record<S: Store>(store: &mut S, bytes: &[u8]) -> Result<(), Refusal>
    requires { S.Store.valid store.old }
    ensures stays { S.Store.valid store.new }
    ensures told { SiteTold bytes.now (S.Store.facts store.old) (S.Store.room store.old) result (S.Store.facts store.new) (S.Store.room store.new) }
{
    let fact = fact_record(bytes)?;
    store.tell(fact)?;
    Ok(())
}

// Tells the facts of the site records at the front of the bytes, the first of which has the given number; answers how many
// there are. The loop is that of the rule records, over a store in the place of a draft: a function over both would have to
// be given what a record is taken by, and each has a contract of its own.
pub(crate) fn tell_site<S: Store>(store: &mut S, bytes: &[u8], first: usize) -> Result<usize, Fault>
    requires valid { S.Store.valid store.old }
    requires few { first + length bytes.now < 32768 }
    ensures stays { S.Store.valid store.new }
    ensures told { SiteRead bytes.now first (S.Store.facts store.old) (S.Store.room store.old) (S.Store.facts store.new) (S.Store.room store.new) result }
{
    let size = Group::Site.size();
    for (place, record) in bytes.chunks(size).enumerate() {
        if !Group::Site.marks(record) {
            return Ok(place);
        }
        tell_record(store, record).map_err(|refusal| Fault {
            refusal,
            index: first + place,
        })?;
    }
    Ok(bytes.len() / size)
}
