//! What the definitions say of all changes that were answered, whatever the program does.
ghost use Rattle.std.specs.Prelude.{All, List};
ghost use mathlib.Core.List.{IsPrefix};
ghost use Rattle.st_hall_press.specs.Steps.{Ask, HallState, Response};
ghost use Rattle.st_hall_press.specs.Views.{EndsWith};
ghost use Rattle.st_hall.specs.Decisions.{StandsIn};

use st_hall_press::HallName;
use st_hall_press::front::Front;
use st_hall_press::kept::KeptFront;

/// Fronts of one hall begin one list: the longest of them, which it gives.
pub fn one_list<H: HallName>(first: &Front<H>, others: &[Front<H>]) -> Front<H>
    ensures first { IsPrefix first.now result }
    ensures others { All (λ front. IsPrefix front result) others.now }
{
    let mut list = first.again();
    for front in others {
        let next = list.longer(front);
        list = next;
    }
    list
}

/// The longest of what is kept of one hall, which all of it begins.
pub fn longest_kept<H: HallName>(first: &KeptFront<H>, others: &[KeptFront<H>]) -> KeptFront<H>
    ensures first { IsPrefix first.now result }
    ensures others { All (λ kept. IsPrefix kept result) others.now }
{
    let mut longest = first.again();
    for kept in others {
        let next = longest.longer(kept);
        longest = next;
    }
    longest
}

/// A change whose front begins a list stands in that list, and its reply is that of its place.
pub fn each_at_its_place()
    ensures { (start : HallState) (front list : List Ask) (asked : Ask) (reply : Response) → EndsWith start front asked reply
        → IsPrefix front list → StandsIn start list asked reply }
{}
