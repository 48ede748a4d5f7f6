// The boxes of one shape, which takes shape[j] leading digits of coordinate j: these digits, as one number, tell the box that a point lies in. The
// array of points is that of `counter`: coordinate j of the point h stands at j 2^m + h, as the number that its first m digits write. Customers call
// nothing here.
#![tactic(auto)]

ghost use Rattle.std.specs.Prelude.{◌^◌, take};
ghost use Rattle.counting_laws.specs.Points.{Shaped, Appendable, Appended, Boxed};

use polynomial::digits;

// The number of the box that each point lies in: the shape's leading digits of its s coordinates, one behind the other.
pub fn boxes_of(points: &[u32; 2048], shape: &[u32; 8], m: u32, s: usize) -> [u32; 256]
    requires { Shaped m s points.now shape.now }
    ensures { Boxed m points.now (take s shape.now) result }
{
    let mut boxes = [0u32; 256];
    for j in 0..s {
        boxes = append_digits(&boxes, points, m, j, shape[j]);
    }
    boxes
}

// Each number with the first d digits of the point's coordinate j behind it.
fn append_digits(boxes: &[u32; 256], points: &[u32; 2048], m: u32, j: usize, d: u32) -> [u32; 256]
    requires { Appendable m points.now j d boxes.now }
    ensures { Appended m points.now j d boxes.now (2 ^ m) result }
{
    let all = digits::leading_term(m) as usize;
    let mut longer = [0u32; 256];
    for h in 0..all {
        longer[h] = (boxes[h] << d) + (points[j * all + h] >> (m - d));
    }
    longer
}
