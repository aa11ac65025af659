//! Why a message has no answer.
ghost use Rattle.lsp_server.specs.Faults as spec;
ghost use Rattle.serde_json.specs.Data.{number};
ghost use Rattle.serde_json.specs.Find.{of_integer};
ghost use Rattle.serde_json.specs.View.{view};
ghost use Rattle.std.specs.Prelude.{◌≡◌};

use serde_json::Value;

/// Why a message has no answer.
#[derive(Clone, Copy)]
pub enum Fault {
    /// The content is no JSON, or its header tells no length.
    Unread,
    /// It is no request, or none that can be answered in this phase, or its content is too long.
    Invalid,
    /// There is no such method.
    NoMethod,
    /// The method takes other parameters.
    BadParams,
    /// `initialize` has not come yet.
    NotBegun,
}

/// The code of the protocol, as JSON.
pub fn code_value(fault: Fault) -> Value
    ensures { view result ≡ number (of_integer (spec.code_of fault)) }
{
    match fault {
        Fault::Unread => Value::from(-32_700i64),
        Fault::Invalid => Value::from(-32_600i64),
        Fault::NoMethod => Value::from(-32_601i64),
        Fault::BadParams => Value::from(-32_602i64),
        Fault::NotBegun => Value::from(-32_002i64),
    }
}

/// A sentence for people.
pub fn text_of(fault: Fault) -> &'static [u8]
    ensures { result.now ≡ spec.text_of fault }
{
    match fault {
        Fault::Unread => b"the content is no JSON, or its header tells no length",
        Fault::Invalid => b"this is no request that can be answered now",
        Fault::NoMethod => b"there is no such method",
        Fault::BadParams => b"the method takes other parameters",
        Fault::NotBegun => b"initialize comes first",
    }
}
