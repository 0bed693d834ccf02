// How the operations change a link's distance, by the link calls of module 1. Distance 0, which they refuse, is an absent link's: it stays absent.
ghost use Rattle.std.specs.Prelude.{◌≡◌, cond, ◌+◌, ◌-◌, ◌<◌, eqb};
ghost use Rattle.model.specs.Links.{further};

// A distance as module 1 makes it; what it refuses, 0, is an absent link's.
pub fn made(d: u32) -> u32
    ensures { result ≡ d }
{
    crate::make(d).unwrap_or(0)
}

// A link that spans a node that comes; an absent one stays absent.
pub fn longer(far: u32) -> u32
    requires { far < 4294967295 }
    ensures { result ≡ further far }
{
    crate::raise(far).unwrap_or(0)
}

// A link that spans a node that goes.
pub fn shorter(far: u32) -> u32
    ensures { result ≡ far - 1 }
{
    crate::lower(far).unwrap_or(0)
}

// The distance of a link whose owner is `by` ranks further on.
pub fn nearer(far: u32, by: u32) -> u32
    ensures { result ≡ far - by }
{
    made(far.saturating_sub(by))
}

// The distance of a link whose owner is `by` ranks further back.
pub fn farther(far: u32, by: u32) -> u32
    requires { far + by < 4294967296 }
    ensures { result ≡ cond (eqb far 0) 0 (far + by) }
{
    if far == 0 { 0 } else { made(far + by) }
}
