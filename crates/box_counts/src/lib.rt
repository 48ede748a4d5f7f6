// Points counted in the boxes of one shape, the other half of `counter`: `box_numbers` has the array of points, the shape, and the box that each point
// lies in. Customers call nothing here.
#![tactic(auto)]

ghost use Rattle.std.specs.Prelude.{◌≡◌, ◌^◌, ◌-◌, ◌≤◌, take};
ghost use Rattle.net_laws.specs.Net.{total};
ghost use Rattle.counting_laws.specs.Tally.{Tallied};
ghost use Rattle.counting_laws.specs.Points.{Shaped, box_at, fills_evenly};

use polynomial::digits;

// Whether each of the 2^(m - t) boxes of a shape of m - t digits has exactly 2^t points.
pub fn fills_evenly(points: &[u32; 2048], shape: &[u32; 8], m: u32, s: usize, t: u32) -> bool
    requires shaped { Shaped m s points.now shape.now }
    requires t_le_m { (t ≤ m) × (total (take s shape.now) ≡ m - t) }
    ensures { result ≡ fills_evenly m points.now t (take s shape.now) }
{
    let counts = count_in_boxes(points, shape, m, s);
    let boxes: u32 = 1 << (m - t);
    let wanted = 1 << t;
    counts[..boxes as usize]
        .iter()
        .all(|count| *count == wanted)
}

// How many points lie in each box, by the number of the box.
fn count_in_boxes(points: &[u32; 2048], shape: &[u32; 8], m: u32, s: usize) -> [u32; 256]
    requires { Shaped m s points.now shape.now }
    ensures { Tallied (box_at m points.now (take s shape.now)) 256 (2 ^ m) result }
{
    let all = digits::leading_term(m) as usize;
    let boxes = box_numbers::boxes_of(points, shape, m, s);
    let mut counts = [0u32; 256];
    for number in &boxes[..all] {
        counts[*number as usize] += 1;
    }
    counts
}
