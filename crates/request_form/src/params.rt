ghost use Rattle.std.specs.Prelude.{◌≡◌, IfOk, option_map};
ghost use Rattle.request_form.specs.Params.{has_name, params_of, value_of};

use field_schema::{NoMemory, Text};
use std::alloc::Global;

// A parameter, decoded.
#[derive(Debug, Drop)]
pub(crate) struct Param {
    pub(crate) name: Text,
    pub(crate) value: Text,
}

impl Param {
    pub(crate) fn has_name(&self, name: &str) -> bool
        ensures { result ≡ has_name name.now self.now }
    {
        self.name.get() == name
    }
}

// The parameters of a form, in their order.
pub(crate) fn read_params(alloc: Global, text: &str) -> Result<Vec<Param>, NoMemory>
    ensures { IfOk result (λ v. v.items ≡ params_of text.now) }
{
    let mut params = Vec::new(alloc);
    for pair in form_urlencoded::parse(alloc, text.as_bytes()).into_owned() {
        let (name, value) = pair?;
        params.push(Param {
            name: Text::new(name),
            value: Text::new(value),
        })?;
    }
    Ok(params)
}

// The value of the first parameter of a name.
pub(crate) fn value_of<'a>(params: &'a [Param], name: &str) -> Option<&'a str>
    ensures { option_map (λ v. v.now) result ≡ value_of name.now params.now }
{
    for param in params {
        if param.has_name(name) {
            return Some(param.value.get());
        }
    }
    None
}
