//! What a change is answered.
ghost use Rattle.std.specs.Prelude.{◌≡◌, Ok, Err, MatchResult};

use st_core::{Asked, Reply};
use st_hall_press::front::Front;
use st_hall_press::{AskFault, HallName};

/// What a change is answered: the change itself, its reply, the list that ends with it, and the same as a front where it was
/// published at once.
#[derive(Drop)]
pub struct Receipt<H: HallName> {
    pub asked: Asked,
    pub reply: Reply,
    pub end: Front<H>,
    pub front: Option<Front<H>>,
}

// The receipt of a change that was made, with the list that ends with it.
pub(crate) fn receipt_of<H: HallName>(
    asked: Asked,
    made: Result<(Reply, Option<Front<H>>), AskFault>,
    end: Front<H>,
) -> Result<Receipt<H>, AskFault>
    ensures { MatchResult result
        (λ r. (r.asked ≡ asked) × (made ≡ Ok (r.reply, r.front)) × (r.end ≡ end))
        (λ e. made ≡ Err e) }
{
    match made {
        Ok((reply, front)) => Ok(Receipt {
            asked,
            reply,
            end,
            front,
        }),
        Err(fault) => {
            drop(asked);
            Err(fault)
        }
    }
}
