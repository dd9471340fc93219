ghost use Rattle.std.specs.Prelude.{◌≡◌, ◌≤◌, ℕ, min, max, length, slice_index};
ghost use Rattle.std.specs.List.{range_with_len};
ghost use Rattle.cycles.specs.Graphs.{graphic};
ghost use Rattle.cycles.specs.Labels.{merged, joins, root};
ghost use Rattle.std.proofs.Common.{refl};
ghost use Rattle.cycles.proofs.Theorem.{graphic_matroid};
ghost use Rattle.frames.proofs.Equality.{same-frames};

use frames::frame::Frame;
use matroids::matroid::Matroid;
use matroids::room::{Room, takes_chosen};

// Graphic matroid over the stations 0 to 255, where each frame joins its tail and its head: no non-empty part of the
// frames touches every station an even number of times.
#[derive(Drop)]
pub struct GraphicMatroid;

impl Matroid for GraphicMatroid {
    ghost admits = { λ _. graphic (λ x. x.tail) (λ x. x.head) };

    ghost laws = { λ _. graphic_matroid same-frames (λ x. x.tail) (λ x. x.head) };

    fn independent(&self, frames: &[Frame], places: u64) -> bool {
        takes_chosen(Labels::new(), frames, places)
    }
}

// A label for each station: the station or a smaller one. From label to label each station leads to a root, which is its
// own label. The frames taken so far join the stations of one root.
#[derive(Drop)]
struct Labels {
    labels: [u8; 256],
    ghost count: { length labels ≡ 256 },
    ghost falling: { (i : ℕ) → slice_index labels i ≤ i },
}

impl Labels {
    // Each station has itself for a label.
    fn new() -> Labels
        ensures { result.labels ≡ range_with_len 0 256 }
    {
        let mut labels = [0; 256];
        for (i, label) in labels.iter_mut().enumerate() {
            *label = i as u8;
        }
        Labels { labels }
    }

    // The root that the station leads to. Each label on the way is led past the next one, which halves the way of the next walk.
    fn root(&mut self, station: u8) -> u8
        ensures value { result ≡ root self.old.labels station }
        ensures own { slice_index self.new.labels result ≡ result }
        ensures same { (w : ℕ) → root self.new.labels w ≡ root self.old.labels w }
    {
        let mut here = station;
        while self.labels[here as usize] != here {
            let past = self.labels[self.labels[here as usize] as usize];
            self.labels[here as usize] = past;
            here = past;
        }
        here
    }

    // The greater of two roots leads to the smaller one.
    fn merge(&mut self, a: u8, b: u8)
        requires { (slice_index self.old.labels a ≡ a) × (slice_index self.old.labels b ≡ b) }
        ensures { (w : ℕ) → root self.new.labels w ≡ merged (min a b) (max a b) (root self.old.labels w) }
    {
        self.labels[a.max(b) as usize] = a.min(b);
    }
}

impl Room for Labels {
    ghost admits = { λ room. joins (λ x. x.tail) (λ x. x.head) (root room.labels) };

    // A frame fits if it joins stations of different roots, which it makes one.
    fn takes(&mut self, x: &Frame) -> bool {
        let a = self.root(x.tail);
        let b = self.root(x.head);
        if a == b {
            return false;
        }
        self.merge(a, b);
        true
    }

    ghost nothing = { λ room. refl };
}
