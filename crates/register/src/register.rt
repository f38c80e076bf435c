// The register: find a record's place by number, enter one after the last, rewrite one.
ghost use Rattle.std.specs.Prelude.{◌≡◌, ◌+◌, is_ok, if◌then◌else◌, MatchOption, nat_lt, slice_set};
ghost use Rattle.refusal.specs.Judging.{judged};
ghost use Rattle.register.specs.Entering.{numbers, in_use, entry_faults};
ghost use Rattle.register.specs.Numbers.{Unborne, FirstAt, knows, place_of};

use crate::numbered::Numbered;
use refusal::Fault;

// The places of one kind of record, lent by their owner, and how many of them hold records: the places are fixed in number, so their
// use is counted beside them.
#[derive(Drop)]
pub struct Register<'a, R> {
    pub places: &'a mut [R],
    pub used: usize,
}

impl<'a, R: Numbered + Copy> Register<'a, R> {
    // The place of the first record that bears the number.
    pub fn find(&self, number: u16) -> Option<usize>
        ensures place { result ≡ place_of (in_use R.numeral R.unset self.now.used self.now.places.now) (numbers R.numeral R.unset self.now.places.now) number }
        ensures first { MatchOption result (Unborne number (numbers R.numeral R.unset self.now.places.now) (in_use R.numeral R.unset self.now.used self.now.places.now)) (λ i. FirstAt number (numbers R.numeral R.unset self.now.places.now) (in_use R.numeral R.unset self.now.used self.now.places.now) i) }
    {
        find_place(self.places, self.used, number)
    }

    // Whether a number is used.
    pub fn knows(&self, number: u16) -> bool
        ensures { result ≡ knows (in_use R.numeral R.unset self.now.used self.now.places.now) (numbers R.numeral R.unset self.now.places.now) number }
    {
        self.find(number).is_some()
    }

    // Enters a record in the place after the last, unless its number is used or there is none. The clause `named` is what a caller of a call that
    // is lent a struct of lent places needs, to have its own places back.
    pub fn enter(&mut self, entry: R) -> Result<(), Fault>
        ensures named { self.new.places.ghost_name ≡ self.old.places.ghost_name }
        ensures answer { result ≡ judged (entry_faults R.numeral R.unset self.old.used self.old.places.now entry) tt }
        ensures places { self.new.places.now ≡ (if is_ok result then slice_set self.old.places.now self.old.used entry else self.old.places.now) }
        ensures used { self.new.used ≡ (if is_ok result then self.old.used + 1 else self.old.used) }
    {
        if self.knows(entry.number()) {
            return Err(Fault::NumberUsed);
        }
        if self.used >= self.places.len() {
            return Err(Fault::RegisterFull);
        }
        self.places[self.used] = entry;
        self.used += 1;
        Ok(())
    }

    // Writes a record over the one in a place, and answers whether there was one.
    pub fn rewrite(&mut self, place: usize, entry: R) -> bool
        ensures named { self.new.places.ghost_name ≡ self.old.places.ghost_name }
        ensures answer { result ≡ nat_lt place (in_use R.numeral R.unset self.old.used self.old.places.now) }
        ensures places { self.new.places.now ≡ (if result then slice_set self.old.places.now place entry else self.old.places.now) }
        ensures used { self.new.used ≡ self.old.used }
    {
        if place >= self.used.min(self.places.len()) {
            return false;
        }
        self.places[place] = entry;
        true
    }
}

// The same search over a slice, of which the first `used` places hold records, or all where there are fewer.
pub fn find_place<R: Numbered>(places: &[R], used: usize, number: u16) -> Option<usize>
    ensures place { result ≡ place_of (in_use R.numeral R.unset used places.now) (numbers R.numeral R.unset places.now) number }
    ensures first { MatchOption result (Unborne number (numbers R.numeral R.unset places.now) (in_use R.numeral R.unset used places.now)) (λ i. FirstAt number (numbers R.numeral R.unset places.now) (in_use R.numeral R.unset used places.now) i) }
{
    places
        .iter()
        .take(used)
        .position(|record| record.number() == number)
}
