ghost use Rattle.std.specs.Prelude.{◌≡◌, IfSome, IfNone, IsTrue, Some};
ghost use Rattle.std.specs.List.{Contains};
ghost use Rattle.gft_text.specs.Table.{HasText, IsAbsent, are_distinct};
ghost use Rattle.gft_text.specs.declared.table.Entry.{Entry};

/// A word and its code.
#[derive(Clone, Copy)]
pub struct Entry {
    pub text: &'static str,
    pub code: u16,
}

/// Words that differ in more than letter case, each with a code of its own. A table with a text or
/// a code twice is refused where it is made.
#[derive(Clone, Copy)]
pub struct Table {
    pub entries: &'static [Entry],
    pub ghost distinct: { IsTrue (are_distinct entries.now) },
}

impl Table {
    /// The code of the one entry with this text, in any case of its letters. `None` if no entry
    /// has it.
    pub fn find(&self, text: &[u8]) -> Option<u16>
        ensures found { IfSome result (λ code. (e : Entry)
            × Contains self.now.entries.now e × HasText e text.now × (e.code ≡ code)) }
        ensures none { IfNone result (IsAbsent self.now.entries.now text.now) }
        ensures one { (e : Entry) →
            Contains self.now.entries.now e → HasText e text.now → result ≡ Some e.code }
    {
        for entry in self.entries {
            if entry.text.as_bytes().eq_ignore_ascii_case(text) {
                return Some(entry.code);
            }
        }
        None
    }
}
