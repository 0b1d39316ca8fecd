// The ranges of the options.
ghost use Rattle.std.specs.Prelude.{◌≡◌, ◌≤◌};
ghost use Rattle.sv_model.specs.Families.{greatest_of};
ghost use Rattle.sv_family.specs.Calls.{with_option};
ghost use Rattle.sv_family.specs.Refused.{option_refusal};

use sv_model::{MAX_ROWS, OptionName, Options, Refusal};

/// The greatest value of `max_immutable`; the least is 1.
pub const MAX_IMMUTABLE: u8 = 8;

fn greatest(option: OptionName) -> u64
    ensures { result ≡ greatest_of option }
{
    match option {
        OptionName::MemtableRows => u64::from(MAX_ROWS),
        OptionName::MaxImmutable => u64::from(MAX_IMMUTABLE),
    }
}

// The refusal that the value meets, if it is outside the option's range.
pub(crate) fn refusal(option: OptionName, value: u64) -> Option<Refusal>
    ensures { result ≡ option_refusal option value }
{
    let greatest = greatest(option);
    if 1 <= value && value <= greatest {
        return None;
    }
    Some(Refusal::BadOption {
        value,
        least: 1,
        greatest,
    })
}

/// The options with this one set to a value that is in its range.
pub fn with_option(options: Options, option: OptionName, value: u64) -> Options
    requires { value ≤ greatest_of option }
    ensures { result ≡ with_option option value options }
{
    match option {
        OptionName::MemtableRows => Options {
            memtable_rows: value as u32,
            ..options
        },
        OptionName::MaxImmutable => Options {
            max_immutable: value as u8,
            ..options
        },
    }
}
