//! Names of tables and saved databases.
ghost use Rattle.std.specs.Prelude.{◌≡◌, ◌≤◌, ◌↔◌, ℕ, List, IfOk, IsTrue, IsUtf8};
ghost use Rattle.std.specs.Result.{result_err};
ghost use Rattle.cap_value.specs.Memory.{AnswersUnlessMemory, RefusesFirst};
ghost use Rattle.cap_value.specs.Bytes.{AreBytes, name_of, is_name, bytes_cmp, bytes_eq};

use crate::blob::are_bytes;
use crate::limits::NAME_BYTES_MAX;
use crate::{AllocHandle, Exact, Fault, OutOfMemory, Refusal};
use arrayvec::ArrayString;
use std::cmp::Ordering;
use std::fmt::{self, Debug, Formatter, Write};
use std::hash::{Hash, Hasher};
use std::marker::Model;
use std::sync::ArcStr;

/// The name of a table or a saved database: 1 to `NAME_BYTES_MAX` bytes of UTF-8 without a zero byte.
/// Names are compared byte for byte, case included. A name of up to 24 bytes takes no memory beside itself, and
/// copies of a longer one share its bytes.
#[derive(Drop)]
pub struct Name<A: AllocHandle> {
    text: NameText<A>,
}

// A short name lies in the value itself.
#[derive(Drop)]
enum NameText<A: AllocHandle> {
    Short(ArrayString<24>),
    Long(ArcStr<A>),
}

impl<A: AllocHandle> Model for Name<A> {
    ghost use Rattle.std.specs.Prelude.{List, ℕ, IsTrue};
    ghost use Rattle.cap_value.specs.Bytes.{is_name};
    ghost use Rattle.cap_value.specs.NameText.{text_bytes};

    ghost Value = { List ℕ };

    ghost view = { λ n. text_bytes n.text };

    ghost invariant = { λ n. IsTrue (is_name (text_bytes n.text)) };
}

impl<A: AllocHandle> Name<A> {
    /// The name with these bytes. Refused with `BadName` where it is empty, longer than `NAME_BYTES_MAX`
    /// bytes, or has a zero byte.
    pub fn new(alloc: A, name: &str) -> Result<Self, Fault<Refusal>>
        ensures name { AnswersUnlessMemory result (name_of name.now) }
        ensures first { RefusesFirst (result_err (name_of name.now)) result }
    {
        if !fits(name.as_bytes()) {
            return Err(Fault::Refused(Refusal::BadName));
        }
        let text = match ArrayString::from(name) {
            Ok(short) => NameText::Short(short),
            Err(_) => NameText::Long(ArcStr::from_str(alloc, name)?),
        };
        Ok(Name { text })
    }

    /// The name, which has 1 to `NAME_BYTES_MAX` bytes and no zero byte.
    pub fn as_str(&self) -> &str
        ensures bytes { result.now ≡ self.now }
        ensures fits { IsTrue (is_name self.now) }
        ensures utf8 { IsUtf8 self.now }
        ensures each { AreBytes self.now }
    {
        let name = match &self.text {
            NameText::Short(short) => short.as_str(),
            NameText::Long(long) => long.as_str(),
        };
        are_bytes(name.as_bytes());
        name
    }

    /// The order of names: by their bytes.
    pub fn order(&self, other: &Self) -> Ordering
        ensures order { result ≡ bytes_cmp self.now other.now }
        ensures equal { (result ≡ Ordering.Equal) ↔ (self.now ≡ other.now) }
    {
        self.as_str().cmp(other.as_str())
    }

    /// Whether both are the same name.
    pub fn same(&self, other: &Self) -> bool
        ensures { IsTrue result ↔ (self.now ≡ other.now) }
    {
        self == other
    }

    /// The same name.
    pub fn copy(&self) -> Result<Self, OutOfMemory>
        ensures { IfOk result (λ copy. copy ≡ self.now) }
    {
        let text = match &self.text {
            NameText::Short(short) => NameText::Short(*short),
            NameText::Long(long) => NameText::Long(long.clone()?),
        };
        Ok(Name { text })
    }
}

fn fits(bytes: &[u8]) -> bool
    ensures { result ≡ is_name bytes.now }
{
    !bytes.is_empty() && bytes.len() <= NAME_BYTES_MAX && !bytes.contains(&0)
}

impl<A: AllocHandle> PartialEq for Name<A> {
    ghost use Rattle.std.specs.Cmp.{partial_equiv_from_equiv};
    ghost use Rattle.std.specs.Cmp.Lexicographic.{nat_list_eq_equiv};
    ghost use Rattle.cap_value.specs.Bytes.{bytes_eq};

    ghost eq = { bytes_eq };

    ghost laws = { partial_equiv_from_equiv nat_list_eq_equiv };

    fn eq(&self, other: &Self) -> bool {
        self.as_str() == other.as_str()
    }
}

impl<A: AllocHandle> Eq for Name<A> {
    ghost use Rattle.std.specs.Cmp.Lexicographic.{nat_list_eq_equiv};

    ghost laws = { nat_list_eq_equiv };
}

impl<A: AllocHandle> PartialOrd for Name<A> {
    ghost use Rattle.std.specs.Cmp.Lexicographic.{texts_po};
    ghost use Rattle.std.specs.Ordering.{as_partial_cmp};
    ghost use Rattle.cap_value.specs.Bytes.{bytes_cmp};

    ghost partial_cmp = { as_partial_cmp bytes_cmp };

    ghost laws = { texts_po };

    fn partial_cmp(&self, other: &Self) -> Option<Ordering> {
        Some(self.order(other))
    }
}

impl<A: AllocHandle> Ord for Name<A> {
    ghost use Rattle.std.proofs.Common.{refl};
    ghost use Rattle.std.specs.Cmp.Lexicographic.{texts_ties};
    ghost use Rattle.std.proofs.lemmas.Cmp.{nat_list_cmp_total};
    ghost use Rattle.cap_value.specs.Bytes.{bytes_cmp};

    ghost cmp = { bytes_cmp };

    ghost total = { nat_list_cmp_total };

    ghost matches_partial_cmp = { λ x y. refl };

    ghost matches_eq = { texts_ties };

    fn cmp(&self, other: &Self) -> Ordering {
        self.order(other)
    }
}

impl<A: AllocHandle> Hash for Name<A> {
    ghost use Rattle.std.specs.Hash as fed;
    ghost use Rattle.std.specs.Cmp.Rules.{hashing};
    ghost use Rattle.std.proofs.Common.{rules};

    ghost hash_input = { λ name. fed.str name };

    ghost respects_eq = { Prim.search (hashing, rules) };

    fn hash<H: Hasher>(&self, state: &mut H) {
        self.as_str().hash(state);
    }
}

impl<A: AllocHandle> Debug for Name<A> {
    fn fmt<W: Write>(&self, f: &mut Formatter<W>) -> fmt::Result {
        Debug::fmt(&self.as_str(), f)
    }
}

/// The same name.
impl<A: AllocHandle> Clone for Name<A> {
    ghost use Rattle.std.specs.Prelude.{◌≡◌};

    ghost is_clone = { λ name clone. clone ≡ name };

    fn clone(&self) -> Result<Self, OutOfMemory> {
        self.copy()
    }
}

impl<A: AllocHandle> Exact for Name<A> {
    ghost exact = { λ name clone same. same };
}
