ghost use Rattle.std.specs.Prelude.{◌≡◌};
ghost use Rattle.plain_types.specs.Paths.{is_part, is_path};

/// Whether the path is one or more parts joined by `/`, none of them empty, `.` or `..`.
pub fn is_path(path: &str) -> bool
    ensures { result ≡ is_path path.now }
{
    path.split('/').all(|part| is_part(part.as_bytes()))
}

fn is_part(part: &[u8]) -> bool
    ensures { result ≡ is_part part.now }
{
    !part.is_empty() && part != b".".as_slice() && part != b"..".as_slice()
}
