//! Numbers that rise.
ghost use Rattle.std.specs.Prelude.{◌≡◌};
ghost use Rattle.rev_causal.specs.Chosen.{IsRising, without};

use rev_numbers::place_of;

/// Takes a number out, where it is there.
pub(crate) fn take_out(numbers: &mut Vec<u32>, number: u32)
    requires rising { IsRising numbers.old.items }
    ensures { numbers.new.items ≡ without number numbers.old.items }
{
    match place_of(numbers, number) {
        Some(place) => {
            numbers.remove(place);
        }
        None => {}
    }
}
