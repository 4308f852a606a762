//! Names of events: how one is formed, and a type that holds nothing else.
#![tactic(auto)]

ghost use Rattle.std.specs.Prelude.{◌≡◌, ◌≤◌, length, take, Some, codes, nat_eq};
ghost use Rattle.std.specs.Cmp.{on_equiv, on_per, partial_equiv_from_equiv};
ghost use Rattle.std.specs.Cmp.Lexicographic.{pointwise, nat_list_eq_equiv};
ghost use Rattle.name.specs.Names.{in_name, FirstWrong};
ghost use Rattle.name.specs.Held.{name_bytes, NameOf};

mod held;

pub use crate::held::Name;
use std::fmt;
use std::str::from_utf8;

/// The longest name, in bytes.
pub const LONGEST: usize = 16;

/// The place of the first byte that may not stand where it does.
pub fn first_wrong(word: &[u8]) -> Option<usize>
    ensures { FirstWrong word.now result }
{
    word.iter().enumerate().position(|(k, b)| !may_stand(k, *b))
}

// Whether this byte may stand at place k of a name.
fn may_stand(k: usize, b: u8) -> bool
    ensures { result ≡ in_name k b }
{
    match b {
        b'a'..=b'z' => true,
        b'0'..=b'9' | b'_' => k > 0,
        _ => false,
    }
}

// The bytes, and zeros behind them.
fn padded(word: &[u8]) -> [u8; LONGEST]
    requires { length word.now ≤ 16 }
    ensures whole { length result ≡ 16 }
    ensures front { take (length word.now) result ≡ word.now }
{
    let mut bytes = [0; LONGEST];
    bytes[0..word.len()].copy_from_slice(word);
    bytes
}

/// A word that is no name.
#[derive(Clone, Copy, PartialEq, Eq, Debug)]
pub struct NoName;

impl TryFrom<&[u8]> for Name {
    type Error = NoName;

    ghost try_from_gives = { λ word r. NameOf word.now r };

    /// The name that these bytes spell, if they do.
    fn try_from(word: &[u8]) -> Result<Name, NoName> {
        let size = word.len();
        if size < 1 || size > LONGEST || first_wrong(word).is_some() {
            return Err(NoName);
        }
        let bytes = padded(word);
        Ok(Name { bytes, size })
    }
}

impl Name {
    /// Its bytes.
    pub fn as_bytes(&self) -> &[u8]
        ensures { result.now ≡ name_bytes self.now }
    {
        &self.bytes[0..self.size]
    }

    /// Its text.
    pub fn as_str(&self) -> &str
        ensures { result.now ≡ name_bytes self.now }
    {
        match from_utf8(self.as_bytes()) {
            Ok(text) => text,
            Err(_) => "",
        }
    }
}

impl PartialEq for Name {
    ghost eq = { λ a b. pointwise nat_eq (name_bytes a) (name_bytes b) };

    ghost laws = { on_per name_bytes (partial_equiv_from_equiv nat_list_eq_equiv) };

    /// Whether they have the same bytes.
    fn eq(&self, other: &Name) -> bool {
        self.as_bytes() == other.as_bytes()
    }
}

impl Eq for Name {
    ghost laws = { on_equiv name_bytes nat_list_eq_equiv };
}

impl Default for Name {
    ghost is_default = { λ name. name_bytes name ≡ codes "a" };

    /// The shortest name that comes first, `a`: it fills the places of a list that hold no name yet.
    fn default() -> Name {
        Name {
            bytes: padded(b"a"),
            size: 1,
        }
    }
}

impl fmt::Display for Name {
    ghost output = { λ name. Some (name_bytes name) };

    /// Its text.
    fn fmt<W: fmt::Write>(&self, f: &mut fmt::Formatter<W>) -> fmt::Result {
        f.write_str(self.as_str())
    }
}

impl fmt::Debug for Name {
    /// As a struct whose one field is the text.
    fn fmt<W: fmt::Write>(&self, f: &mut fmt::Formatter<W>) -> fmt::Result {
        f.debug_struct("Name")
            .field("text", &self.as_str())
            .finish()
    }
}
