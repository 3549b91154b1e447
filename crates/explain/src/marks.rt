// Which byte belongs to which field, and which one was refused.
use crate::fields::Numbered;
use crate::verdict::Verdict;
use checks::part::PartWalk;

// So many places have an owner; the input is shorter.
const PLACES: usize = 4112;

// What a byte belongs to. Fields are counted from 1.
#[derive(Clone, Copy, PartialEq, Eq)]
pub(crate) enum Owner {
    Nobody,
    Field(u8),
    Refused,
}

#[derive(Drop)]
pub(crate) struct Owners {
    of: [Owner; PLACES],
}

impl Owners {
    pub(crate) fn new(s: &[u8], said: Verdict) -> Owners {
        let mut owners = Owners {
            of: [Owner::Nobody; PLACES],
        };
        match said {
            Ok(Some(accepted)) => owners.number_fields(s, accepted.fields),
            Ok(None) => {}
            // The place may be the one just past the input.
            Err(refused) => owners.own(refused.byte, 1, Owner::Refused),
        }
        owners
    }

    fn own(&mut self, start: usize, len: usize, owner: Owner) {
        for place in self.of.iter_mut().skip(start).take(len) {
            *place = owner;
        }
    }

    fn number_fields(&mut self, s: &[u8], fields: PartWalk) {
        for (number, step) in Numbered::new(s, fields) {
            self.own(step.start, step.len, Owner::Field(number));
        }
    }

    pub(crate) fn at(&self, place: usize) -> Owner {
        self.of.get(place).copied().unwrap_or(Owner::Nobody)
    }

    // Whether the byte before a place belongs to the same field.
    pub(crate) fn goes_back(&self, place: usize) -> bool {
        place
            .checked_sub(1)
            .is_some_and(|before| self.at(before) == self.at(place))
    }

    // Whether the byte after a place does.
    pub(crate) fn goes_on(&self, place: usize) -> bool {
        self.at(place.saturating_add(1)) == self.at(place)
    }

    // Where the places end that are shown: the one just past the input is, where it was refused.
    pub(crate) fn shown_end(&self, s: &[u8]) -> usize {
        let n = s.len();
        if self.at(n) == Owner::Refused {
            n.saturating_add(1)
        } else {
            n
        }
    }
}
