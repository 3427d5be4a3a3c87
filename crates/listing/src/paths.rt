// The path that a backing name means.
ghost use Rattle.std.specs.Prelude.{◌≡◌, IfOk, string_bytes};
ghost use Rattle.listing.specs.Paths.{joined};

use std::alloc::{AllocError, Global};
use std::path::Path;

// The path that a name means in the header of the image at `path`: as it is if absolute, else from the image's own folder.
pub fn joined(heap: Global, path: &str, name: &str) -> Result<String, AllocError>
    ensures value { IfOk result (λ s. string_bytes s ≡ joined path.now name.now) }
{
    match Path::new(path).parent() {
        Some(folder) => Ok(folder.join(heap, name)?.into_string()),
        None => String::from_str(heap, name),
    }
}

#[cfg(test)]
mod tests {
    use super::*;
    use std::test::Fail;

    #[test]
    fn names_are_found_from_the_images_folder(rt: HostRuntime) -> Result<(), Fail> {
        let heap = rt.alloc();
        let rows = [
            ("a.qcow2", "base.raw", "base.raw"),
            ("lab/a.qcow2", "base.raw", "lab/base.raw"),
            ("lab/a.qcow2", "../base.raw", "lab/../base.raw"),
            ("lab/a.qcow2", "/srv/base.raw", "/srv/base.raw"),
            ("/a.qcow2", "base.raw", "/base.raw"),
        ];
        for (path, name, found) in rows {
            assert!(rt; joined(heap, path, name)?.as_str() == found);
        }
        Ok(())
    }
}
