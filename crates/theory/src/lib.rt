// The theory of part books: theorems of the definitions, on the contract of one function.
#![tactic(auto)]

ghost use Rattle.std.specs.Prelude.{◌≡◌};
ghost use Rattle.theory.specs.Theorems.{CompletedIsTrue, CanonicalWorld, TablesAnswer, ClashesArePaths, ClashWordsWithin, StepsAreComplete, PossibleBySearch, ExactIsOne, BelowIsEnough};
ghost use Rattle.theory.specs.Cases.{WorkedCases, CasesHaveTables};

// No shortest clash word has more letters than this; with it stand all theorems of the theory.
pub fn longest_clash_word() -> u16
    ensures number { result ≡ 2079 }
    ensures bound { ClashWordsWithin result }
    ensures completed_is_true { CompletedIsTrue }
    ensures canonical_world { CanonicalWorld }
    ensures tables_answer { TablesAnswer }
    ensures clashes_are_paths { ClashesArePaths }
    ensures steps_are_complete { StepsAreComplete }
    ensures possible_by_search { PossibleBySearch }
    ensures exact_is_one { ExactIsOne }
    ensures below_is_enough { BelowIsEnough }
    ensures worked_cases { WorkedCases }
    ensures cases_have_tables { CasesHaveTables }
{
    2079
}
