// Functions that 8.0 to 8.3 declare themselves, by the lengths of their names.
ghost use Rattle.std.specs.Prelude.{◌≡◌};
ghost use Rattle.builtin_tables.specs.Named.{found, of_length, rows_of};
ghost use Rattle.builtin_tables.specs.Newer.{newer_functions};

use crate::named::find_row;
use crate::release::Release;

static LENGTH_4: [(&str, Release); 1] = [("fdiv", Release::V80)];

static LENGTH_5: [(&str, Release); 1] = [("fsync", Release::V81)];

static LENGTH_9: [(&str, Release); 2] = [("fdatasync", Release::V81), ("imageavif", Release::V81)];

static LENGTH_10: [(&str, Release); 1] = [("mb_str_pad", Release::V83)];

static LENGTH_11: [(&str, Release); 3] = [
    ("enum_exists", Release::V81),
    ("pcntl_rfork", Release::V81),
    ("curl_upkeep", Release::V82),
];

static LENGTH_12: [(&str, Release); 2] = [
    ("str_contains", Release::V80),
    ("imap_is_open", Release::V82),
];

static LENGTH_13: [(&str, Release); 8] = [
    ("str_ends_with", Release::V80),
    ("array_is_list", Release::V81),
    ("json_validate", Release::V83),
    ("str_increment", Release::V83),
    ("str_decrement", Release::V83),
    ("posix_sysconf", Release::V83),
    ("posix_eaccess", Release::V83),
    ("socket_atmark", Release::V83),
];

static LENGTH_14: [(&str, Release); 3] = [
    ("get_debug_type", Release::V80),
    ("posix_pathconf", Release::V83),
    ("ldap_exop_sync", Release::V83),
];

static LENGTH_15: [(&str, Release); 3] = [
    ("get_resource_id", Release::V80),
    ("str_starts_with", Release::V80),
    ("posix_fpathconf", Release::V83),
];

static LENGTH_16: [(&str, Release); 4] = [
    ("enchant_dict_add", Release::V80),
    ("openssl_cms_read", Release::V80),
    ("openssl_cms_sign", Release::V80),
    ("pg_pipeline_sync", Release::V83),
];

static LENGTH_18: [(&str, Release); 3] = [
    ("openssl_cms_verify", Release::V80),
    ("ini_parse_quantity", Release::V82),
    ("pg_pipeline_status", Release::V83),
];

static LENGTH_19: [(&str, Release); 6] = [
    ("preg_last_error_msg", Release::V80),
    ("openssl_cms_encrypt", Release::V80),
    ("openssl_cms_decrypt", Release::V80),
    ("imagecreatefromavif", Release::V81),
    ("mysqli_fetch_column", Release::V81),
    ("ldap_connect_wallet", Release::V83),
];

static LENGTH_20: [(&str, Release); 1] = [("mysqli_execute_query", Release::V82)];

static LENGTH_21: [(&str, Release); 4] = [
    ("enchant_dict_is_added", Release::V80),
    ("imagegetinterpolation", Release::V80),
    ("ldap_count_references", Release::V80),
    ("pg_exit_pipeline_mode", Release::V83),
];

static LENGTH_22: [(&str, Release); 1] = [("pg_enter_pipeline_mode", Release::V83)];

static LENGTH_23: [(&str, Release); 1] = [("memory_reset_peak_usage", Release::V82)];

static LENGTH_25: [(&str, Release); 1] = [("openssl_cipher_key_length", Release::V82)];

static LENGTH_26: [(&str, Release); 1] = [("stream_context_set_options", Release::V83)];

static LENGTH_28: [(&str, Release); 1] = [("odbc_connection_string_quote", Release::V82)];

static LENGTH_30: [(&str, Release); 1] = [("sodium_crypto_stream_xchacha20", Release::V81)];

static LENGTH_31: [(&str, Release); 1] = [("pg_set_error_context_visibility", Release::V83)];

static LENGTH_32: [(&str, Release); 1] = [("odbc_connection_string_is_quoted", Release::V82)];

static LENGTH_33: [(&str, Release); 1] = [("libxml_get_external_entity_loader", Release::V82)];

static LENGTH_34: [(&str, Release); 1] = [("sodium_crypto_stream_xchacha20_xor", Release::V81)];

static LENGTH_35: [(&str, Release); 3] = [
    ("sodium_crypto_core_ristretto255_add", Release::V81),
    ("sodium_crypto_core_ristretto255_sub", Release::V81),
    ("odbc_connection_string_should_quote", Release::V82),
];

static LENGTH_37: [(&str, Release); 3] = [
    ("sodium_crypto_stream_xchacha20_keygen", Release::V81),
    ("sodium_crypto_scalarmult_ristretto255", Release::V81),
    ("sodium_crypto_stream_xchacha20_xor_ic", Release::V82),
];

static LENGTH_38: [(&str, Release); 1] = [("sodium_crypto_core_ristretto255_random", Release::V81)];

static LENGTH_41: [(&str, Release); 1] = [(
    "sodium_crypto_core_ristretto255_from_hash",
    Release::V81,
)];

static LENGTH_42: [(&str, Release); 4] = [
    ("sodium_crypto_core_ristretto255_scalar_add", Release::V81),
    ("sodium_crypto_core_ristretto255_scalar_mul", Release::V81),
    ("sodium_crypto_core_ristretto255_scalar_sub", Release::V81),
    ("sodium_crypto_scalarmult_ristretto255_base", Release::V81),
];

static LENGTH_45: [(&str, Release); 4] = [
    (
        "sodium_crypto_core_ristretto255_scalar_invert",
        Release::V81,
    ),
    (
        "sodium_crypto_core_ristretto255_scalar_negate",
        Release::V81,
    ),
    (
        "sodium_crypto_core_ristretto255_scalar_random",
        Release::V81,
    ),
    (
        "sodium_crypto_core_ristretto255_scalar_reduce",
        Release::V81,
    ),
];

static LENGTH_46: [(&str, Release); 1] = [(
    "sodium_crypto_core_ristretto255_is_valid_point",
    Release::V81,
)];

static LENGTH_49: [(&str, Release); 1] = [(
    "sodium_crypto_core_ristretto255_scalar_complement",
    Release::V81,
)];

// The rows whose names have a length.
#[tactic(auto, unfolding(crate::specs::Newer::newer_functions))]
fn rows_of_length(length: usize) -> &'static [(&'static str, Release)]
    ensures { rows_of result.now ≡ of_length length newer_functions }
{
    match length {
        4 => &LENGTH_4,
        5 => &LENGTH_5,
        9 => &LENGTH_9,
        10 => &LENGTH_10,
        11 => &LENGTH_11,
        12 => &LENGTH_12,
        13 => &LENGTH_13,
        14 => &LENGTH_14,
        15 => &LENGTH_15,
        16 => &LENGTH_16,
        18 => &LENGTH_18,
        19 => &LENGTH_19,
        20 => &LENGTH_20,
        21 => &LENGTH_21,
        22 => &LENGTH_22,
        23 => &LENGTH_23,
        25 => &LENGTH_25,
        26 => &LENGTH_26,
        28 => &LENGTH_28,
        30 => &LENGTH_30,
        31 => &LENGTH_31,
        32 => &LENGTH_32,
        33 => &LENGTH_33,
        34 => &LENGTH_34,
        35 => &LENGTH_35,
        37 => &LENGTH_37,
        38 => &LENGTH_38,
        41 => &LENGTH_41,
        42 => &LENGTH_42,
        45 => &LENGTH_45,
        46 => &LENGTH_46,
        49 => &LENGTH_49,
        _ => &[],
    }
}

/// The release that first declares a function of this name itself, or `None` where 7.4 and 8.3 agree on it:
/// both declare it, or neither does. Without ASCII case. (UPGRADING 8.0 to 8.3, "New Functions".)
#[tactic(auto, using(crate::proofs::LengthLemmas::found_in_length))]
pub fn newer_function(name: &[u8]) -> Option<Release>
    ensures { result ≡ found newer_functions name.now }
{
    find_row(rows_of_length(name.len()), name)
}
