// A book that was read from a file.
ghost use Rattle.stores.specs.Piles.{PileValid};
ghost use Rattle.image.specs.Images.{image_facts};

use book::sealed::Book;
use image::store::ImageStore;
use stores::additions::Additions;

// The sealed rules, and the site facts over the factory facts, which are read in the file's bytes.
#[derive(Drop)]
pub struct Opened<'a> {
    pub book: Book,
    pub store: Additions<ImageStore<'a>>,
    pub ghost valid: { PileValid image_facts (λ _. Unit {0}) store },
}
