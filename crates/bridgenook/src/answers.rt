// How an answer becomes a result and eight numbers, and how a fixed list is handed out.
ghost use Rattle.std.specs.Prelude.{◌≡◌};
ghost use Rattle.refusals.specs.Told.{told_by};
ghost use Rattle.bridgenook.specs.Exports.{Says, hand_out_of, handed_out};

use super::values::Values;
use refusals::{Numbered, Refusal};

// The result of a call, with its values or its refusal in the eight numbers.
pub fn say<T: Values>(outcome: Result<T, Refusal>, answer: &mut [u64; 8]) -> u32
    ensures { Says (told_by T.values outcome) result answer.new }
{
    match outcome {
        Ok(made) => {
            let values = made.values();
            *answer = [
                0, 0, values[0], values[1], values[2], values[3], values[4], values[5],
            ];
            0
        }
        Err(why) => {
            let numbered = Numbered::from(why);
            *answer = [numbered.place, numbered.bit, 0, 0, 0, 0, 0, 0];
            numbered.number
        }
    }
}

#[tactic(auto, using(laws::proofs::Choices::choices), unfolding(crate::specs::Exports::hand_out_of))]
pub fn hand_out(list: &[u16], out: &mut [u16], answer: &mut [u64; 8]) -> u32
    ensures { Says (hand_out_of list.now out.old) result answer.new × (out.new ≡ handed_out list.now out.old) }
{
    if out.len() != list.len() {
        return say::<()>(Err(Refusal::WrongLength), answer);
    }
    out.copy_from_slice(list);
    say(Ok(()), answer)
}
