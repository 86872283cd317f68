// The degree from which a capped steel carries nothing.
pub mod capped;

ghost use Rattle.std.specs.Prelude.{◌≤◌};

// From 21 to 1,200. A type for any bounds would still want this name, a refusal and a `new` here.
#[derive(Clone, Copy)]
pub struct Cap {
    degree: u32,
    ghost least: { 21 ≤ degree },
    ghost most: { degree ≤ 1200 },
}
