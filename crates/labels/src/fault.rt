ghost use Rattle.std.specs.Prelude.{◌≡◌};
ghost use Rattle.labels.specs.declared.fault.LabelFault.TheVariants.{Memory};

use std::alloc::AllocError;
use std::error::Error;
use std::fmt;

/// Why a tenant or labels are refused. Of several faults the first in the order of the variants is answered. Those of
/// one label (`BadName` to `ValueTooLong`) are tested label by label, as given, and `NameTwice` after them. `Memory`
/// may come at any point.
#[derive(Clone, Copy, Debug)]
pub enum LabelFault {
    /// A stream needs at least one label.
    NoLabels,
    /// More than `MAX_LABELS` labels.
    TooManyLabels,
    /// A name that is not `[A-Za-z_][A-Za-z0-9_]*`.
    BadName,
    /// A name of more than 1,024 bytes.
    NameTooLong,
    /// An empty value.
    EmptyValue,
    /// A value of more than 2,048 bytes.
    ValueTooLong,
    /// A name that is given twice.
    NameTwice,
    /// A text that is not the canonical text of a label set.
    NotCanonical,
    /// A tenant that is not 1 to 150 ASCII letters, digits, `-` and `_`.
    BadTenant,
    /// The allocator gave no memory.
    Memory,
}

impl LabelFault {
    ghost use Rattle.labels.specs.Faults.{label_words};

    /// What is said of it, also to clients.
    pub fn words(self) -> &'static str
        ensures { result.now ≡ label_words self }
    {
        match self {
            Self::NoLabels => "no labels",
            Self::TooManyLabels => "more than 15 labels",
            Self::BadName => "bad label name",
            Self::NameTooLong => "label name too long",
            Self::EmptyValue => "empty label value",
            Self::ValueTooLong => "label value too long",
            Self::NameTwice => "label name twice",
            Self::NotCanonical => "labels are not in canonical form",
            Self::BadTenant => "bad tenant",
            Self::Memory => "out of memory",
        }
    }
}

impl fmt::Display for LabelFault {
    fn fmt<W: fmt::Write>(&self, f: &mut fmt::Formatter<W>) -> fmt::Result {
        f.write_str(self.words())
    }
}

impl Error for LabelFault {}

impl From<AllocError> for LabelFault {
    ghost from_gives = { λ _ e. e ≡ Memory };

    fn from(_refused: AllocError) -> LabelFault {
        LabelFault::Memory
    }
}
