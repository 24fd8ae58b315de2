//! The fields of an item, each read and put by its name.

/// Reads one field by its name, from the front of `$rest`, and hands on what stands behind it.
macro_rules! field_of {
    (level, $alloc:expr, $rest:expr) => {
        level_of($rest)?
    };
    (lo, $alloc:expr, $rest:expr) => {
        bytes_of($alloc, $rest)?
    };
    (hi, $alloc:expr, $rest:expr) => {
        bytes_of($alloc, $rest)?
    };
    (prefix, $alloc:expr, $rest:expr) => {
        bytes_of($alloc, $rest)?
    };
    (suffix, $alloc:expr, $rest:expr) => {
        bytes_of($alloc, $rest)?
    };
    ($number:ident, $alloc:expr, $rest:expr) => {
        number_of($rest)?
    };
}

/// The item of these fields, in this order, whose content begins `$from`, and what stands behind it.
macro_rules! read_fields {
    ($item:ident { $($field:ident),+ }, $alloc:expr, $from:expr) => {{
        let rest = $from;
        $(let ($field, rest) = field_of!($field, $alloc, rest);)+
        Ok(($item { $($field),+ }, rest))
    }};
}

/// Appends one field by its name.
macro_rules! put_field_of {
    (level, $item:expr, $alloc:expr, $out:expr) => {
        $out.push($item.level)?
    };
    (lo, $item:expr, $alloc:expr, $out:expr) => {
        put_field($alloc, $out, $item.lo.as_slice())?
    };
    (hi, $item:expr, $alloc:expr, $out:expr) => {
        put_field($alloc, $out, $item.hi.as_slice())?
    };
    (prefix, $item:expr, $alloc:expr, $out:expr) => {
        put_field($alloc, $out, $item.prefix.as_slice())?
    };
    (suffix, $item:expr, $alloc:expr, $out:expr) => {
        put_field($alloc, $out, $item.suffix.as_slice())?
    };
    ($number:ident, $item:expr, $alloc:expr, $out:expr) => {
        put_varint($alloc, $out, $item.$number)?
    };
}

/// Appends these fields of the item, in this order.
macro_rules! put_fields {
    ($item:tt { $($field:ident),+ }, $alloc:expr, $out:expr) => {{
        $(put_field_of!($field, $item, $alloc, $out);)+
        Ok(())
    }};
}

pub(crate) use field_of;
pub(crate) use put_field_of;
pub(crate) use put_fields;
pub(crate) use read_fields;
