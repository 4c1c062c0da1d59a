// A line of siblings that is walked along.
ghost use Rattle.records.specs.Siblings.{Ends};

// The siblings from one on, 0 where none is left. They end: so it is known of their links.
// Stays with 0 for none: `cur` is the link as it was read, and record 0 is the root, which is no sibling.
#[derive(Clone, Copy, Drop)]
pub struct Siblings<'a> {
    pub words: &'a [u32],
    pub cur: u32,
    ghost end: { Ends words.now cur },
}
