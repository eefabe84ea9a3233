//! Identifiers of one range, and the least of them that is free.
ghost use Rattle.std.specs.Prelude.{◌≡◌, ℕ, ◌≤◌, ◌↔◌, List, not, position, IsTrue, IsSome, IsNone, IfSome};
ghost use Rattle.std.specs.List.{Contains};
ghost use Rattle.admission.specs.Free.{Numbers, IsIn, IsFree, IsLeastFree, least_free_of};
ghost use Rattle.admission.specs.Window.{IsWindow};

use std::marker::Model;

/// How many consecutive numbers one pass over the used ones looks at.
const WINDOW: usize = 128;

/// The numbers from `first` to `last`, both included.
#[derive(Clone, Copy, Debug, PartialEq, Eq)]
pub struct IdRange {
    first: u32,
    last: u32,
}

impl Model for IdRange {
    ghost Value = { Numbers };

    ghost view = { λ range. record { first = range.first; last = range.last } };

    ghost invariant = { λ range. range.first ≤ range.last };

    ghost inverse = { λ numbers. record { first = numbers.first; last = numbers.last } };
}

impl IdRange {
    /// Returns the numbers from `first` to `last`.
    pub fn new(first: u32, last: u32) -> IdRange
        requires { first ≤ last }
        ensures { result ≡ record { first = first; last = last } }
    {
        IdRange { first, last }
    }

    /// Returns the first number of the range.
    pub fn get_first(&self) -> u32
        ensures value { result ≡ self.now.first }
        ensures ordered { result ≤ self.now.last }
    {
        self.first
    }

    /// Returns the last number of the range.
    pub fn get_last(&self) -> u32
        ensures value { result ≡ self.now.last }
        ensures ordered { self.now.first ≤ result }
    {
        self.last
    }

    /// Returns whether the number is one of the range.
    pub fn contains(&self, number: u32) -> bool
        ensures { IsTrue result ↔ IsIn self.now number }
    {
        self.first <= number && number <= self.last
    }

    /// Returns the least number of the range that is not used; none where each is.
    ///
    /// The used numbers come in any order; one may be twice, or outside the range. Takes no memory,
    /// and looks at the used numbers once for each 128 numbers that it tries.
    pub fn least_free(&self, used: &[u32]) -> Option<u32>
        ensures exact { result ≡ least_free_of self.now used.now }
        // The number is in the range and not in use, and none is less.
        ensures found { IfSome result (IsLeastFree self.now used.now) }
        // None comes exactly if each number of the range is in use.
        ensures none { IsNone result ↔ ((number : ℕ) → IsFree self.now used.now number → ⊥) }
    {
        let mut base = self.first;
        loop {
            let left = self.last - base;
            let width = (left as usize).min(WINDOW - 1) + 1;
            let taken = taken_in(used, base);
            if let Some(place) = first_unmarked(&taken[..width]) {
                return Some(base + place as u32);
            }
            if left < WINDOW as u32 {
                return None;
            }
            base += WINDOW as u32;
        }
    }
}

/// Returns which of the numbers from `base` on are used: the mark at a place is that of the number
/// there.
fn taken_in(used: &[u32], base: u32) -> [bool; WINDOW]
    ensures { IsWindow used.now base result }
{
    let mut taken = [false; WINDOW];
    for number in used {
        if *number >= base && *number - base < WINDOW as u32 {
            taken[(*number - base) as usize] = true;
        }
    }
    taken
}

/// Returns the first place with no mark.
fn first_unmarked(taken: &[bool]) -> Option<usize>
    ensures { result ≡ position not taken.now }
{
    taken.iter().position(|mark| !*mark)
}

/// States that one number at most is the least free one.
pub fn least_free_is_one()
    ensures { (range : Numbers) (used : List ℕ) (a b : ℕ) → IsLeastFree range used a → IsLeastFree range used b
        → a ≡ b }
{}

/// States that the function gives a number exactly where it is the least free one.
pub fn least_free_is_given()
    ensures { (range : Numbers) (used : List ℕ) (number : ℕ) → (least_free_of range used ≡ Some number)
        ↔ IsLeastFree range used number }
{}

/// States that a number that is no longer used can be given again.
pub fn unused_is_given()
    ensures { (range : Numbers) (used : List ℕ) (number : ℕ) → IsIn range number → ¬ Contains used number
        → IsSome (least_free_of range used) }
{}
