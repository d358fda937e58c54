// A tournament of rows of devices for the next point. The tree is one array: node n + i is the leaf of row
// i, and each node k from 1 to n - 1 has the winner of the nodes 2k and 2k + 1, so the root, node 1, has
// the row that goes before all others.
ghost use Rattle.std.specs.Prelude.{◌≡◌, ◌≤◌, length};
ghost use Rattle.shares.specs.Tournament.{Small, Ready, Won, Leaves, Tournament, Raised};

use slicing::MAX_DEVICES;

// The places of a tree: two for each device, the first of them free.
pub const NODES: usize = 2 * MAX_DEVICES;

// Of the rows a and b the one with the larger next quotient, the lower one of two equal. A quotient is
// capacity / (points + 1); the two are compared by their cross products.
fn winner(points: &[u64; MAX_DEVICES], capacities: &[u64; MAX_DEVICES], a: usize, b: usize) -> usize
    requires { Small points.now capacities.now a × Small points.now capacities.now b }
    ensures { Won points.now capacities.now a b result }
{
    let x = capacities[a] * (points[b] + 1);
    let y = capacities[b] * (points[a] + 1);
    if y < x {
        a
    } else if x < y {
        b
    } else {
        a.min(b)
    }
}

// Puts the n rows at their leaves.
pub fn leaves(tree: &mut [usize; NODES], n: usize)
    requires { (n ≤ 256) × (length tree.old ≡ 512) }
    ensures { Leaves n tree.new }
{
    for i in 0..n {
        tree[n + i] = i;
    }
}

// Plays every match, from the leaves to the root.
pub fn play(
    tree: &mut [usize; NODES],
    points: &[u64; MAX_DEVICES],
    capacities: &[u64; MAX_DEVICES],
    n: usize,
)
    requires { Ready points.now capacities.now n × Leaves n tree.old }
    ensures { Tournament points.now capacities.now n tree.new }
{
    for k in (1..n).rev() {
        tree[k] = winner(points, capacities, tree[2 * k], tree[2 * k + 1]);
    }
}

// Plays the matches above row w again, which has a point more.
pub fn replay(
    tree: &mut [usize; NODES],
    points: &[u64; MAX_DEVICES],
    capacities: &[u64; MAX_DEVICES],
    n: usize,
    w: usize,
)
    requires { Ready points.now capacities.now n × Raised points.now capacities.now n w tree.old }
    ensures { Tournament points.now capacities.now n tree.new }
{
    // A while: each node up is half of the one below.
    let mut k = (n + w) / 2;
    while 0 < k {
        tree[k] = winner(points, capacities, tree[2 * k], tree[2 * k + 1]);
        k /= 2;
    }
}
