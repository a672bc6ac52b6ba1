// Both sides' blocks as they are lent: lists of pairs, a block's first column and its dof. Nothing is known of them before `check_blocks` has passed
// them.
ghost use Rattle.std.specs.Prelude.{◌≡◌};
ghost use Rattle.std.specs.Iterator.{YieldsFirst, item_count};
ghost use Rattle.blocks.specs.BlockList.{blocks_of};

use ground::wide;

#[derive(Clone, Copy)]
pub struct Sides<'a> {
    pub kept: &'a [u32],
    pub elims: &'a [u32],
}

// A block: its first column, and how many columns it has from there.
#[derive(Clone, Copy)]
pub struct Block {
    pub first: usize,
    pub dof: usize,
}

// A side's blocks, one after the other. An odd last number is none.
#[derive(Drop)]
pub struct Blocks<'a> {
    rest: &'a [u32],
}

pub fn blocks_of(side: &[u32]) -> Blocks<'_>
    ensures { result.rest ≡ side.entry }
{
    Blocks { rest: side }
}

impl Iterator for Blocks<'_> {
    type Item = Block;

    ghost next_gives = { YieldsFirst (λ b. blocks_of b.rest.now) };

    ghost remaining = { item_count (λ b. blocks_of b.rest.now) };

    fn next(&mut self) -> Option<Block> {
        let (pair, rest) = self.rest.split_first_chunk::<2>()?;
        self.rest = rest;
        Some(Block {
            first: wide(pair[0]),
            dof: wide(pair[1]),
        })
    }
}
