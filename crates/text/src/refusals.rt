// A refusal: F, its number and what it carries.
ghost use Rattle.std.specs.Prelude.{[], ◌∷◌, take};
ghost use Rattle.bits.specs.Bits.{pick};
ghost use Rattle.text.specs.Sheet.{PutsOn};
ghost use Rattle.text.specs.Refusals.{carried_text, refused_text, malformed_text};

use crate::Page;

// The number of the refusal of a table.
const TABLE_REFUSED: usize = 8;

impl Page<'_> {
    // A value that is carried: a number, or a rule, which has a letter, a to h.
    fn put_carried(&mut self, is_rule: bool, value: usize)
        ensures { PutsOn self.old (carried_text is_rule value) self.new }
    {
        if is_rule {
            self.put(b' ');
            self.put((96 + value % 16) as u8);
        } else {
            self.put_number(value);
        }
    }

    // .. if there is one.
    fn put_if(&mut self, is_there: bool, is_rule: bool, value: usize)
        ensures { PutsOn self.old (pick is_there (carried_text is_rule value) []) self.new }
    {
        if is_there {
            self.put_carried(is_rule, value);
        }
    }

    // Of the three values the refusal carries the first `count`.
    pub fn put_refused(
        &mut self,
        number: usize,
        count: usize,
        first: usize,
        second: usize,
        third: usize,
    )
        ensures { PutsOn self.old (refused_text number (take count (first ∷ second ∷ third ∷ []))) self.new }
    {
        self.put(b'F');
        self.put_number(number);
        self.put_if(0 < count, number == TABLE_REFUSED, first);
        self.put_if(1 < count, false, second);
        self.put_if(2 < count, false, third);
    }

    // 14, which carries nothing.
    pub fn put_malformed(&mut self)
        ensures { PutsOn self.old malformed_text self.new }
    {
        self.put_text(b"F 14");
    }
}
