// Request a of document 02: an item written again from its own fields, by the entries that write words.
#![tactic(auto)]

ghost use Rattle.std.specs.Prelude.{◌≡◌};
ghost use Rattle.words.specs.Listed.{packed};
ghost use Rattle.item_words.specs.Again.{ForItem};
ghost use Rattle.words.specs.Answer.{said};

use items::Item;
use words::{Refusal, Words};

// The word of an item: a wide move from its fields, a logical immediate from its value, a displacement from its base and distance.
pub fn write_item(i: Item) -> Result<Words, Refusal>
    ensures { ForItem i (λ x. said result ≡ packed x) }
{
    match i {
        Item::Wide(m) => wide_moves::write_wide(m),
        Item::Logical(l) => logical_words::logical_word(l.operation, l.value, l.width, l.rn, l.rd),
        Item::Displaced(d) => displacements::disp_word(d.format, d.base, d.distance),
        Item::Unknown(w) => Ok(words::one(w.0)),
    }
}
