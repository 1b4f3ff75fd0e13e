// Why a text is no task, and where.
ghost use Rattle.std.specs.Prelude.{◌≡◌};
ghost use Rattle.table.specs.Faults.{rule_number, table_number, table_offset};
ghost use Rattle.table.specs.declared.fault.TableFault.TheVariants.{Text};

use text::TextFault;

// The rules of form that a text can break.
#[derive(Clone, Copy, Debug)]
pub enum FormRule {
    // The outermost value is no object.
    OutermostNoObject,
    // An array's name in an object of another level.
    ArrayElsewhere,
    // A known member or an entry of another kind, or an exception word that is not allowed.
    WrongKind,
    // An attribute or value object without the member called like it.
    NamesakeMissing,
    // A known member again.
    Repeated,
    // An entry above the array's limit.
    TooMany,
}

#[derive(Clone, Copy)]
pub enum TableFault {
    Text(TextFault),
    // The rule that is broken, and where.
    Form(FormRule, usize),
    // The task weighs more than a full table, or than the lent one, has records.
    TooHeavy,
}

impl From<TextFault> for TableFault {
    ghost from_gives = { λ e r. r ≡ Text e };

    fn from(e: TextFault) -> TableFault {
        TableFault::Text(e)
    }
}

impl FormRule {
    pub fn number(self) -> u8
        ensures { result ≡ rule_number self }
    {
        match self {
            FormRule::OutermostNoObject => 21,
            FormRule::ArrayElsewhere => 22,
            FormRule::WrongKind => 23,
            FormRule::NamesakeMissing => 24,
            FormRule::Repeated => 25,
            FormRule::TooMany => 26,
        }
    }
}

impl TableFault {
    pub fn number(&self) -> u8
        ensures { result ≡ table_number self.now }
    {
        match *self {
            TableFault::Text(fault) => fault.number(),
            TableFault::Form(rule, _) => rule.number(),
            TableFault::TooHeavy => 27,
        }
    }

    pub fn offset(&self) -> usize
        ensures { result ≡ table_offset self.now }
    {
        match *self {
            TableFault::Text(fault) => fault.offset(),
            TableFault::Form(_, offset) => offset,
            TableFault::TooHeavy => 0,
        }
    }
}
