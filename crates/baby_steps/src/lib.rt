// The baby steps q, q x, q x^2, .. in chains by their low digits, so that one of them is found by a few comparisons. Customers call nothing here.
#![tactic(auto)]

ghost use Rattle.std.specs.Prelude.{◌≡◌, ◌+◌, ◌<◌, ◌≤◌, set};
ghost use Rattle.std.specs.Option.{MatchOption};
ghost use Rattle.definitions.specs.Number.{largest};
ghost use Rattle.number_laws.specs.Bounds.{Between};
ghost use Rattle.baby_steps.specs.Chains.{baby_steps, holds, Chained, BabySteps};

use limits::LARGEST_DEGREE;
use polynomial::residues::Residues;

// The most baby steps: 2^(m/2) of the largest degree.
pub const BABY_STEPS: usize = 1 << (LARGEST_DEGREE / 2);

// Residues in chains. The place of the residue value[j] is j + 1, with the place before it in its chain in next[j]; `first` has the last place of each
// chain, and 0 stands for none. The mask is one less than a power of two: residues with the same digits under it are in one chain.
// Linked by places in fixed arrays, since there is no heap for lists or a map; in three of them, since the definition of chains (`Chained`) has three lists.
#[derive(Drop)]
pub struct Steps {
    pub mask: u32,
    pub count: u32,
    pub first: [u32; BABY_STEPS],
    pub next: [u32; BABY_STEPS],
    pub value: [u32; BABY_STEPS],
    pub ghost mask_fits: { mask < baby_steps },
    pub ghost count_fits: { count ≤ baby_steps },
    pub ghost chained: { Chained mask count first next value },
}

impl Steps {
    // The first `count` baby steps.
    pub fn of(residues: Residues, q: u32, count: u32) -> Steps
        requires q_lt_lead { q < residues.lead }
        requires between { Between 1 baby_steps count }
        ensures count { result.count ≡ count }
        ensures steps { BabySteps residues.p q count count result.first result.next result.value }
    {
        let mut steps = Steps {
            mask: count - 1,
            count: 0,
            first: [0; BABY_STEPS],
            next: [0; BABY_STEPS],
            value: [0; BABY_STEPS],
        };
        let mut residue = q;
        for _ in 0..count {
            steps.push(residue);
            residue = residues.times_x(residue);
        }
        steps
    }

    // One residue more, which becomes the last of its chain.
    fn push(&mut self, residue: u32)
        requires { self.old.count < baby_steps }
        ensures mask { self.new.mask ≡ self.old.mask }
        ensures count { self.new.count ≡ self.old.count + 1 }
        ensures value { self.new.value ≡ set self.old.value self.old.count residue }
    {
        let low = (residue & self.mask) as usize;
        let j = self.count as usize;
        self.value[j] = residue;
        self.next[j] = self.first[low];
        self.count += 1;
        self.first[low] = self.count;
    }

    // The last place that holds the residue.
    pub fn place_of(&self, residue: u32) -> Option<u32>
        ensures { MatchOption result
            (largest self.now.count (holds self.now.value residue) ≡ 0)
            (λ place. (place ≡ largest self.now.count (holds self.now.value residue)) × (0 < place)) }
    {
        let mut place = self.first[(residue & self.mask) as usize];
        while place != 0 {
            let j = place as usize - 1;
            if self.value[j] == residue {
                return Some(place);
            }
            place = self.next[j];
        }
        None
    }
}
