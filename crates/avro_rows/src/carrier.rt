//! Whether an Avro type carries a kind.
ghost use Rattle.std.specs.Prelude.{◌≡◌};
ghost use Rattle.avro_binary.specs.declared.schema.Schema.{out-Schema};
ghost use Rattle.kind_values.specs.KindValues.{is_decimal_size};
ghost use Rattle.avro_rows.specs.Carrier.{is_null_type, is_instant_type, is_decimal_type, carries_bare, carries_branch, carries};

use avro_binary::{Logical, Schema};
use row_values::Kind;

pub fn is_null_type(schema: &Schema) -> bool
    ensures { result ≡ is_null_type (out-Schema schema.now) }
{
    match schema {
        Schema::Null => true,
        _ => false,
    }
}

fn is_instant_type(logical: &Logical) -> bool
    ensures { result ≡ is_instant_type logical.now }
{
    match logical {
        Logical::Plain => true,
        Logical::TimestampMicros { .. } => true,
        _ => false,
    }
}

fn is_decimal_type(wanted: u8, logical: &Logical) -> bool
    ensures { result ≡ is_decimal_type wanted logical.now }
{
    match logical {
        Logical::Decimal { scale, .. } => *scale == wanted,
        _ => false,
    }
}

fn is_decimal_size(size: u64) -> bool
    ensures { result ≡ is_decimal_size size }
{
    1 <= size && size <= 16
}

/// Whether a type that is no union carries the kind.
fn carries_bare(kind: Kind, schema: &Schema) -> bool
    ensures { result ≡ carries_bare kind (out-Schema schema.now) }
{
    match (kind, schema) {
        (Kind::Bool, Schema::Boolean) => true,
        (Kind::Int, Schema::Int(_)) => true,
        (Kind::Long, Schema::Int(_)) => true,
        (Kind::Long, Schema::Long(_)) => true,
        (Kind::Date, Schema::Int(_)) => true,
        (Kind::Timestamp { .. }, Schema::Long(logical)) => is_instant_type(logical),
        (Kind::Decimal { scale, .. }, Schema::Bytes(logical)) => is_decimal_type(scale, logical),
        (Kind::Decimal { scale, .. }, Schema::Fixed { size, logical, .. }) => {
            is_decimal_size(*size) && is_decimal_type(scale, logical)
        }
        (Kind::Text, Schema::Text) => true,
        (Kind::Bytes, Schema::Bytes(_)) => true,
        (Kind::Bytes, Schema::Fixed { .. }) => true,
        _ => false,
    }
}

/// Whether these branches of a union are null and a type that carries the kind.
fn carries_branch(kind: Kind, branches: &[Schema]) -> bool
    ensures { result ≡ carries_branch kind branches.now }
{
    if let [first, second] = branches {
        if is_null_type(first) {
            return carries_bare(kind, second);
        }
        if is_null_type(second) {
            return carries_bare(kind, first);
        }
    }
    false
}

pub fn carries(kind: Kind, schema: &Schema) -> bool
    ensures { result ≡ carries kind schema.now }
{
    match schema {
        Schema::Union(branches) => carries_branch(kind, branches.as_slice()),
        _ => carries_bare(kind, schema),
    }
}
