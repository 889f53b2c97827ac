// What a call of the C interface answers and leaves, by definition, that 0 means success, and how an answer is told to a host:
// specs/ has the definitions, proofs/ the theorems. The calls stand in `lang_ty_questions`, `lang_ty_rewriting` and
// `lang_ty_nodes_and_texts`, which host/archive joins into one static library.
#![tactic(auto)]

ghost use Rattle.std.specs.Prelude.{◌≡◌};
ghost use Rattle.lang_ty.specs.Told.{told, tell};

use types::Refusal;

// Tells an answer to a host: its value where it is lent, and 0; of a refusal nothing is written, and its number is told.
pub fn tell<T: Copy>(answer: Result<T, Refusal>, lent: &mut T) -> u32
    ensures { told result lent.new ≡ tell lent.old answer }
{
    match answer {
        Ok(value) => {
            *lent = value;
            0
        }
        Err(refusal) => refusal.number(),
    }
}
