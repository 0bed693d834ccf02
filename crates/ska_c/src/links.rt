// The link calls, which have no arena.
ghost use Rattle.std.specs.Prelude.{◌≡◌};
ghost use Rattle.link.specs.Distances.{made, raised, lowered};
ghost use Rattle.ska_c.specs.Returned.{with_distance};

use numbers::Valued;

#[unsafe(no_mangle)]
pub extern "C" fn ska_link_make(d: u32, distance: &mut u32) -> u32
    ensures { with_distance result distance.new ≡ made d }
{
    let n = Valued::from(ska::link_make(d));
    *distance = n.value;
    n.number
}

#[unsafe(no_mangle)]
pub extern "C" fn ska_link_raise(d: u32, distance: &mut u32) -> u32
    ensures { with_distance result distance.new ≡ raised d }
{
    let n = Valued::from(ska::link_raise(d));
    *distance = n.value;
    n.number
}

#[unsafe(no_mangle)]
pub extern "C" fn ska_link_lower(d: u32, distance: &mut u32) -> u32
    ensures { with_distance result distance.new ≡ lowered d }
{
    let n = Valued::from(ska::link_lower(d));
    *distance = n.value;
    n.number
}
