//! The numbers of a specifier or a range, and reading them byte by byte.

ghost use Rattle.std.specs.Prelude.{◌≡◌, ◌+◌, ◌*◌};
ghost use Rattle.compat_spec.specs.NumberMachine.{numbers_step, numbers_end, dot_step, digit_step};

/// One to three numbers joined by dots, as a specifier or a range writes them.
#[derive(Clone, Copy, Debug, PartialEq, Eq, Drop)]
pub enum Numbers {
    /// A major number alone.
    Major(u32),
    /// A major and a minor number.
    Minor(u32, u32),
    /// A major, a minor and a patch number.
    Patch(u32, u32, u32),
}

/// The numbers that stand before a dot.
#[derive(Clone, Copy, Drop)]
pub(crate) enum Begun {
    Nothing,
    AfterMajor(u32),
    AfterMinor(u32, u32),
}

/// Where the reading of numbers stands.
#[derive(Clone, Copy, Drop)]
pub(crate) enum Reading {
    /// A number has to begin.
    Awaiting(Begun),
    /// Within a number, with its value so far.
    Digits(Begun, u32),
}

/// Reading after a dot, where a further number may stand.
fn after_dot(begun: Begun, value: u32) -> Option<Reading>
    ensures { result ≡ dot_step begun value }
{
    match begun {
        Begun::Nothing => Some(Reading::Awaiting(Begun::AfterMajor(value))),
        Begun::AfterMajor(major) => Some(Reading::Awaiting(Begun::AfterMinor(major, value))),
        Begun::AfterMinor(_, _) => None,
    }
}

/// Reading after one more digit of a number.
fn further(begun: Begun, value: u32, digit: u8) -> Option<Reading>
    ensures { result ≡ digit_step begun (10 * value + digit) }
{
    let value = value.checked_mul(10)?.checked_add(u32::from(digit))?;
    Some(Reading::Digits(begun, value))
}

impl Reading {
    /// Reading one byte further, or None where no numbers go on so.
    #[tactic(auto, unfolding(crate::specs::NumberMachine::numbers_step))]
    pub(crate) fn step(self, byte: u8) -> Option<Reading>
        ensures { result ≡ numbers_step self byte }
    {
        match self {
            Reading::Awaiting(begun) => {
                if byte.is_ascii_digit() {
                    Some(Reading::Digits(begun, u32::from(byte - b'0')))
                } else {
                    None
                }
            }
            Reading::Digits(begun, value) => {
                if byte == b'.' {
                    after_dot(begun, value)
                } else if byte.is_ascii_digit() {
                    further(begun, value, byte - b'0')
                } else {
                    None
                }
            }
        }
    }

    /// The numbers that have been read, where they may end here.
    pub(crate) fn finish(self) -> Option<Numbers>
        ensures { result ≡ numbers_end self }
    {
        match self {
            Reading::Awaiting(_) => None,
            Reading::Digits(Begun::Nothing, value) => Some(Numbers::Major(value)),
            Reading::Digits(Begun::AfterMajor(major), value) => Some(Numbers::Minor(major, value)),
            Reading::Digits(Begun::AfterMinor(major, minor), value) => {
                Some(Numbers::Patch(major, minor, value))
            }
        }
    }
}
