// The pins of a lane, by number.
ghost use Rattle.std.specs.Prelude.{IfSome, None, Some, length, position, slice_set, ◌/◌, ◌<◌, ◌≡◌};
ghost use Rattle.std.specs.Option.{option_copied};
ghost use Rattle.sv_db.specs.Pins.{HasNoPin, IsPin, is_free};

use crate::locals::MAX_PINS;
use sv_gets::serial_of;
use sv_model::{SvRef, SvSerial};
use sv_objects::Body;

fn is_free(pin: &Option<SvRef<Body>>) -> bool
    ensures { result ≡ is_free pin.now }
{
    pin.is_none()
}

/// The least number that no pin has.
pub(crate) fn least_free(pins: &[Option<SvRef<Body>>]) -> Option<usize>
    ensures { result ≡ position is_free pins.now }
{
    pins.iter().position(|pin| is_free(pin))
}

/// The pin of this number is of this SuperVersion. Gives the number, and the serial.
pub(crate) fn keep(
    pins: &mut [Option<SvRef<Body>>],
    number: usize,
    sv: SvRef<Body>,
) -> (u8, SvSerial)
    requires { (number < length pins.old) × (number < 16) }
    ensures kept { pins.new ≡ slice_set pins.old number (Some sv) }
    ensures shown { (result.0 ≡ number) × (result.1 ≡ sv.pack / 256) }
{
    let serial = serial_of(&sv);
    pins[number] = Some(sv);
    (number as u8, serial)
}

/// The SuperVersion of the pin of this number.
pub(crate) fn kept(pins: &[Option<SvRef<Body>>], number: u64) -> Option<&SvRef<Body>>
    requires { length pins.now ≡ MAX_PINS }
    ensures pin { IfSome (option_copied result) (IsPin pins.now number) }
    ensures none { option_copied result ≡ None → HasNoPin pins.now number }
{
    if number >= MAX_PINS as u64 {
        return None;
    }
    pins[number as usize].as_ref()
}

/// The same, and the number is free.
pub(crate) fn taken(pins: &mut [Option<SvRef<Body>>], number: u64) -> Option<SvRef<Body>>
    requires { length pins.old ≡ MAX_PINS }
    ensures pin { IfSome result (λ sv. IsPin pins.old number sv × (pins.new ≡ slice_set pins.old number None)) }
    ensures none { result ≡ None → HasNoPin pins.old number × (pins.new ≡ pins.old) }
{
    if number >= MAX_PINS as u64 {
        return None;
    }
    pins[number as usize].take()
}
