// The tree of pairs whose partial quotients have degree one.
ghost use Rattle.std.specs.Prelude.{◌≡◌, ◌^◌, ◌<◌};
ghost use Rattle.definitions.specs.Generator.{child};
ghost use Rattle.polynomial_laws.specs.Degree.{HasDegree};

// One level down the tree from (p, q), by the quotient a = x or x + 1: the new p. The new q is p.
pub fn child(a: u32, p: u32, q: u32) -> u32
    requires has_degree { HasDegree a 1 }
    requires p_bound { p < 2 ^ 31 }
    ensures { result ≡ (child a (record { p = p; q = q })).p }
{
    let by_x = (p * 2) ^ q;
    if a == 2 { by_x } else { by_x ^ p }
}
