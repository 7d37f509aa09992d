//! How many questions are open.

ghost use Rattle.std.specs.Prelude.{◌≡◌, not};
ghost use Rattle.std.specs.List.{count_by};
ghost use Rattle.mk_states.specs.States.{numbers_below};
ghost use Rattle.mk_rules.specs.Refusals as rules;

use mk_record::Journal;

/// How many of so many variables no resolution gave a value.
pub fn open_questions(journal: &Journal, variables: u32) -> u32
    ensures { result ≡ count_by (λ v. not (rules.is_resolved journal.now.history v))
        (numbers_below variables) }
{
    let mut open = 0;
    for variable in 0..variables {
        if !journal.is_resolved(variable) {
            open += 1;
        }
    }
    open
}
