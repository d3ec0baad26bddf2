// Delete, of a directory: as a file is deleted, and only when it is empty. On an image that the caller has checked.
ghost use Rattle.std.specs.Prelude.{◌≡◌};
ghost use Rattle.layout.specs.Directory.{is_directory};
ghost use Rattle.layout.specs.Check.{check};
ghost use Rattle.layout.specs.Walks.Looks.{Opened};
ghost use Rattle.volume.specs.Directories.{delete_directory_refusal};

use layout::file::File;
use layout::refusal::Refusal;

// The directory, or the refusal, 9, 17, 10 or 18.
pub fn delete_directory_refusal(image: &[u8], path: &[u8]) -> Result<File, Refusal>
    requires { check image.now ≡ 0 }
    ensures { Opened is_directory image.now path.now (delete_directory_refusal image.now path.now) result }
{
    let directory = layout::file::open_directory(image, path)?;
    let n = image.len() / 512;
    if !layout::directory::is_empty(image, n, directory.first) {
        return Err(Refusal::NotEmpty);
    }
    Ok(directory)
}
