//! The bytes of a job file.
ghost use Rattle.std.specs.Prelude.{◌≡◌};
ghost use Rattle.ngc_job_calls.specs.Said as spec;

/// Returns a text without the byte order mark of UTF-8 at its beginning.
pub(crate) fn without_mark(bytes: &[u8]) -> &[u8]
    ensures { result.now ≡ spec.without_mark bytes.now }
{
    match bytes {
        [0xEF, 0xBB, 0xBF, rest @ ..] => rest,
        _ => bytes,
    }
}
