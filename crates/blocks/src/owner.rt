// Whose a row or a column is. What belongs to nobody holds the mark, which is the owner type's.
ghost use Rattle.std.specs.Prelude.{◌≡◌, eqb};
ghost use Rattle.blocks.specs.Claims.{mark};

// The owner of a row: an eliminated block's number, or the mark.
#[derive(Clone, Copy)]
pub struct Owner {
    pub block: u32,
}

impl Owner {
    // The mark: what the owners hold at a row where no eliminated block has an entry, and the map at a column that no block has claimed.
    pub const NONE: u32 = 4_294_967_295;

    // Whether the row is nobody's.
    pub fn is_none(self) -> bool
        ensures { result ≡ eqb self.block mark }
    {
        self.block == Owner::NONE
    }
}
