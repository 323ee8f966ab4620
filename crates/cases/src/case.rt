ghost use Rattle.std.specs.Prelude.{◌<◌, length, IfOk};

use anyhow::anyhow;
use jobs::Form;

// One case of the input: its form, its file and what stands behind it.
#[derive(Clone, Copy, PartialEq, Eq, Debug)]
pub struct Case<'a> {
    pub form: Form,
    pub file: &'a [u8],
    pub rest: &'a [u8],
}

// Both types are of other crates, so that this is no `TryFrom`; in `jobs` no file has such a byte.
fn form_of(byte: u8) -> anyhow::Result<Form> {
    match byte {
        0 => Ok(Form::Job),
        1 => Ok(Form::Grid),
        _ => Err(anyhow!("a form is neither 0 nor 1")),
    }
}

// The first case: a byte of form (0 job, 1 grid), a length in four bytes and the file.
pub fn first_case(bytes: &[u8]) -> anyhow::Result<Case<'_>>
    ensures { IfOk result (λ c. length c.rest.now < length bytes.now) }
{
    let [form, a, b, c, d, behind @ ..] = bytes else {
        return Err(anyhow!("the input ends inside the head of a case"));
    };
    let form = form_of(*form)?;
    // A `usize` has no `From` of a `u32`.
    let len = u32::from_be_bytes([*a, *b, *c, *d]) as usize;
    if behind.len() < len {
        return Err(anyhow!("the input ends inside a file"));
    }
    let (file, rest) = behind.split_at(len);
    Ok(Case { form, file, rest })
}
