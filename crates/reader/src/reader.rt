// The reader. The work is `read_at`, on slices and a number; the functions over the struct only take it apart.
ghost use Rattle.std.specs.Prelude.{◌+◌, ◌<◌, ◌^◌, ◌≡◌};
ghost use Rattle.layout.specs.Looks.{read};
ghost use Rattle.layout.specs.Answers.{read_answer};
ghost use Rattle.reader.specs.Turns.{placed};

use layout::refusal::Refusal;

// A reader open on an image: the path is looked up at each read.
#[derive(Drop)]
pub struct Reader<'a> {
    pub image: &'a [u8],
    pub path: &'a [u8],
    pub position: usize,
}

// Reads at a position: the answer of layout's read; the place behind what was read is a number of 64 bits. The two slices have one lifetime, as in the struct.
pub fn read_at<'x>(
    image: &'x [u8],
    path: &'x [u8],
    position: usize,
    buffer: &mut [u8],
) -> Result<usize, Refusal>
    ensures answer { read_answer result buffer.new ≡ read image.now path.now position buffer.old }
    ensures place { position + (read image.now path.now position buffer.old).count < 2 ^ 64 }
{
    layout::reading::read(image, path, position, buffer)
}

// This and the next two are functions and not methods: users call them by the names that docs/SURFACE.md lists.

// Opens a reader at the file's start. Nothing is looked up yet, so nothing is refused.
pub fn open<'a>(image: &'a [u8], path: &'a [u8]) -> Reader<'a>
    ensures { (result.image ≡ image.entry) × (result.path ≡ path.entry) × (result.position ≡ 0) }
{
    Reader {
        image,
        path,
        position: 0,
    }
}

// Where the reader stands.
pub fn position<'a>(r: Reader<'a>) -> usize
    ensures { result ≡ r.entry.position }
{
    r.position
}

// Reads on: the answer of layout's read at the reader's position, which moves on by the count. A refused read has no count and keeps its place.
pub fn read<'s, 'a, 'b>(r: &'s mut Reader<'a>, buffer: &'b mut [u8]) -> Result<usize, Refusal>
    ensures answer { read_answer result buffer.new ≡ read r.old.image.now r.old.path.now r.old.position buffer.old }
    ensures place { r.new ≡ placed r.old (r.old.position + (read r.old.image.now r.old.path.now r.old.position buffer.old).count) }
{
    let answer = read_at(r.image, r.path, r.position, buffer);
    r.position += answer.unwrap_or(0);
    answer
}
