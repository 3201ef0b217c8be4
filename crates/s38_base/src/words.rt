ghost use Rattle.std.specs.Prelude.{◌≡◌};

use std::cmp::Ordering;

/// What an instruction does to an object, as far as the locks of others block it.
#[derive(Clone, Copy, PartialEq, Eq, PartialOrd, Ord, Debug)]
pub enum Category {
    Read,
    Change,
    Control,
}

/// The five lock states, in their order.
#[derive(Clone, Copy, PartialEq, Eq, PartialOrd, Ord, Debug)]
pub enum LockState {
    Lsrd,
    Lsro,
    Lsup,
    Lear,
    Lenr,
}

/// How an operand is compared, or which entry is sought.
#[derive(Clone, Copy, PartialEq, Eq, PartialOrd, Ord, Debug)]
pub enum Relation {
    Eq,
    Ne,
    Lo,
    Hi,
    Nl,
    Nh,
    Any,
    First,
    Last,
}

impl Relation {
    ghost use Rattle.s38_base.specs.Relations.{holds, relation_of, relation_word};

    /// The number of its word.
    pub fn word(self) -> u32
        ensures { result ≡ relation_word self }
    {
        match self {
            Relation::Eq => 0,
            Relation::Ne => 1,
            Relation::Lo => 2,
            Relation::Hi => 3,
            Relation::Nl => 4,
            Relation::Nh => 5,
            Relation::Any => 6,
            Relation::First => 7,
            Relation::Last => 8,
        }
    }

    /// The relation of a word.
    pub fn from_word(word: u32) -> Option<Relation>
        ensures { result ≡ relation_of word }
    {
        match word {
            0 => Some(Relation::Eq),
            1 => Some(Relation::Ne),
            2 => Some(Relation::Lo),
            3 => Some(Relation::Hi),
            4 => Some(Relation::Nl),
            5 => Some(Relation::Nh),
            6 => Some(Relation::Any),
            7 => Some(Relation::First),
            8 => Some(Relation::Last),
            _ => None,
        }
    }

    /// Whether it holds of what is in this order to the other side; ANY, FIRST and LAST hold always.
    #[inline(always)]
    pub fn holds(self, order: Ordering) -> bool
        ensures { result ≡ holds self order }
    {
        match self {
            Relation::Eq => matches!(order, Ordering::Equal),
            Relation::Ne => !matches!(order, Ordering::Equal),
            Relation::Lo => matches!(order, Ordering::Less),
            Relation::Hi => matches!(order, Ordering::Greater),
            Relation::Nl => !matches!(order, Ordering::Less),
            Relation::Nh => !matches!(order, Ordering::Greater),
            Relation::Any | Relation::First | Relation::Last => true,
        }
    }
}

/// Where a cursor goes.
#[derive(Clone, Copy, PartialEq, Eq, PartialOrd, Ord, Debug)]
pub enum Seek {
    First,
    Last,
    Next,
    Prev,
    At,
}
