// Where things stand in an image of n blocks.
ghost use Rattle.std.specs.Prelude.{◌≤◌, ◌≡◌};
ghost use Rattle.layout.specs.Limits.{max_blocks};
ghost use Rattle.layout.specs.Geometry.{table_blocks, root_block};

// How many blocks the chain table has.
pub fn table_blocks(n: usize) -> usize
    requires { n ≤ max_blocks }
    ensures { result ≡ table_blocks n }
{
    n.div_ceil(128)
}

// The first block of the root directory.
pub fn root_block(n: usize) -> usize
    requires { n ≤ max_blocks }
    ensures { result ≡ root_block n }
{
    table_blocks(n) + 1
}
