// Constants that 8.0 to 8.3 declare themselves, by the lengths of their names.
ghost use Rattle.std.specs.Prelude.{◌≡◌};
ghost use Rattle.builtin_tables.specs.Named.{found_exactly, of_length, rows_of};
ghost use Rattle.builtin_tables.specs.Newer.{newer_constants};

use crate::named::find_exact_row;
use crate::release::Release;

static LENGTH_6: [(&str, Release); 1] = [("T_ENUM", Release::V81)];

static LENGTH_7: [(&str, Release); 2] = [("T_MATCH", Release::V80), ("SO_MARK", Release::V81)];

static LENGTH_8: [(&str, Release); 1] = [("IMG_AVIF", Release::V81)];

static LENGTH_9: [(&str, Release); 3] = [
    ("CURLPX_OK", Release::V82),
    ("SO_RTABLE", Release::V82),
    ("AF_DIVERT", Release::V83),
];

static LENGTH_10: [(&str, Release); 10] = [
    ("T_READONLY", Release::V81),
    ("SCM_CREDS2", Release::V82),
    ("SKF_AD_CPU", Release::V82),
    ("SKF_AD_MAX", Release::V82),
    ("SKF_AD_OFF", Release::V82),
    ("SO_MEMINFO", Release::V82),
    ("FIL_ATTACH", Release::V83),
    ("FIL_DETACH", Release::V83),
    ("SOL_FILTER", Release::V83),
    ("TCP_REPAIR", Release::V83),
];

static LENGTH_11: [(&str, Release); 9] = [
    ("T_ATTRIBUTE", Release::V80),
    ("SO_WANTMORE", Release::V81),
    ("CURLE_PROXY", Release::V82),
    ("LOCAL_CREDS", Release::V82),
    ("SKF_AD_MARK", Release::V82),
    ("SO_ZEROCOPY", Release::V82),
    ("TCP_KEEPCNT", Release::V82),
    ("IP_DONTFRAG", Release::V83),
    ("SOL_UDPLITE", Release::V83),
];

static LENGTH_12: [(&str, Release); 6] = [
    ("SO_DONTTRUNC", Release::V81),
    ("CURLOPT_HSTS", Release::V82),
    ("MSG_ZEROCOPY", Release::V82),
    ("SKF_AD_QUEUE", Release::V82),
    ("TCP_KEEPIDLE", Release::V82),
    ("TCP_QUICKACK", Release::V83),
];

static LENGTH_13: [(&str, Release); 13] = [
    ("CURLALTSVC_H1", Release::V82),
    ("CURLALTSVC_H2", Release::V82),
    ("CURLALTSVC_H3", Release::V82),
    ("CURLPX_CLOSED", Release::V82),
    ("CURLPX_GSSAPI", Release::V82),
    ("CURLPX_IDENTD", Release::V82),
    ("SKF_AD_HATYPE", Release::V82),
    ("SKF_AD_NLATTR", Release::V82),
    ("SKF_AD_RANDOM", Release::V82),
    ("SKF_AD_RXHASH", Release::V82),
    ("TCP_KEEPALIVE", Release::V82),
    ("TCP_KEEPINTVL", Release::V82),
    ("SO_DETACH_BPF", Release::V83),
];

static LENGTH_14: [(&str, Release); 10] = [
    ("IMAGETYPE_AVIF", Release::V81),
    ("CURLOPT_ALTSVC", Release::V82),
    ("CURLPROTO_MQTT", Release::V82),
    ("CURLPX_NO_AUTH", Release::V82),
    ("LOCALE_NEUTRAL", Release::V82),
    ("SKF_AD_IFINDEX", Release::V82),
    ("SKF_AD_PKTTYPE", Release::V82),
    ("TCP_CONGESTION", Release::V82),
    ("CURLKHMATCH_OK", Release::V83),
    ("IP_PMTUDISC_DO", Release::V83),
];

static LENGTH_15: [(&str, Release); 11] = [
    ("T_NAME_RELATIVE", Release::V80),
    ("CURLOPT_DOH_URL", Release::V81),
    ("SO_ACCEPTFILTER", Release::V81),
    ("CURLHSTS_ENABLE", Release::V82),
    ("SKF_AD_PROTOCOL", Release::V82),
    ("SKF_AD_VLAN_TAG", Release::V82),
    ("SO_INCOMING_CPU", Release::V82),
    ("CURLINFO_CAINFO", Release::V83),
    ("CURLINFO_CAPATH", Release::V83),
    ("CURLWS_RAW_MODE", Release::V83),
    ("IP_MTU_DISCOVER", Release::V83),
];

static LENGTH_16: [(&str, Release); 15] = [
    ("OPENSSL_CMS_TEXT", Release::V80),
    ("T_NAME_QUALIFIED", Release::V80),
    ("TCP_DEFER_ACCEPT", Release::V81),
    ("CURLINFO_REFERER", Release::V82),
    ("CURLPX_LONG_USER", Release::V82),
    ("CURLPX_RECV_AUTH", Release::V82),
    ("CURLPX_SEND_AUTH", Release::V82),
    ("SKF_AD_ALU_XOR_X", Release::V82),
    ("SKF_AD_VLAN_TPID", Release::V82),
    ("CURLKHMATCH_LAST", Release::V83),
    ("IP_PMTUDISC_DONT", Release::V83),
    ("IP_PMTUDISC_OMIT", Release::V83),
    ("IP_PMTUDISC_WANT", Release::V83),
    ("POSIX_SC_ARG_MAX", Release::V83),
    ("SO_DETACH_FILTER", Release::V83),
];

static LENGTH_17: [(&str, Release); 18] = [
    ("IMG_WEBP_LOSSLESS", Release::V81),
    ("POSIX_RLIMIT_NPTS", Release::V81),
    ("CURLOPT_AWS_SIGV4", Release::V82),
    ("CURLOPT_HSTS_CTRL", Release::V82),
    ("CURL_VERSION_HSTS", Release::V82),
    ("CURL_VERSION_ZSTD", Release::V82),
    ("MYSQLI_IS_MARIADB", Release::V82),
    ("SKF_AD_PAY_OFFSET", Release::V82),
    ("SO_BPF_EXTENSIONS", Release::V82),
    ("TCP_NOTSENT_LOWAT", Release::V82),
    ("IP_PMTUDISC_PROBE", Release::V83),
    ("PGSQL_PIPELINE_ON", Release::V83),
    ("POSIX_PC_LINK_MAX", Release::V83),
    ("POSIX_PC_NAME_MAX", Release::V83),
    ("POSIX_PC_NO_TRUNC", Release::V83),
    ("POSIX_PC_PATH_MAX", Release::V83),
    ("POSIX_PC_PIPE_BUF", Release::V83),
    ("POSIX_SC_PAGESIZE", Release::V83),
];

static LENGTH_18: [(&str, Release); 18] = [
    ("LIBENCHANT_VERSION", Release::V80),
    ("OPENSSL_CMS_BINARY", Release::V80),
    ("OPENSSL_CMS_NOATTR", Release::V80),
    ("OPENSSL_CMS_NOSIGS", Release::V80),
    ("CURLAUTH_AWS_SIGV4", Release::V82),
    ("CURLPX_BAD_VERSION", Release::V82),
    ("CURLPX_LONG_PASSWD", Release::V82),
    ("CURLPX_RECV_REQACK", Release::V82),
    ("CURL_VERSION_GSASL", Release::V82),
    ("CURL_VERSION_HTTP3", Release::V82),
    ("SKF_AD_NLATTR_NEST", Release::V82),
    ("CURLOPT_QUICK_EXIT", Release::V83),
    ("CURLOPT_WS_OPTIONS", Release::V83),
    ("PGSQL_PIPELINE_OFF", Release::V83),
    ("POSIX_PC_MAX_CANON", Release::V83),
    ("POSIX_PC_MAX_INPUT", Release::V83),
    ("UDPLITE_RECV_CSCOV", Release::V83),
    ("UDPLITE_SEND_CSCOV", Release::V83),
];

static LENGTH_19: [(&str, Release); 17] = [
    ("OPENSSL_CMS_NOCERTS", Release::V80),
    ("CURLOPT_SSLKEY_BLOB", Release::V81),
    ("CURLOPT_ALTSVC_CTRL", Release::V82),
    ("CURLOPT_CAINFO_BLOB", Release::V82),
    ("CURLOPT_MAXAGE_CONN", Release::V82),
    ("CURLOPT_SOCKS5_AUTH", Release::V82),
    ("CURLPX_RECV_ADDRESS", Release::V82),
    ("CURLPX_RECV_CONNECT", Release::V82),
    ("CURLPX_RESOLVE_HOST", Release::V82),
    ("CURLPX_SEND_CONNECT", Release::V82),
    ("CURLPX_SEND_REQUEST", Release::V82),
    ("CURLPX_UNKNOWN_FAIL", Release::V82),
    ("CURLPX_UNKNOWN_MODE", Release::V82),
    ("DBA_LMDB_NO_SUB_DIR", Release::V82),
    ("CURLKHMATCH_MISSING", Release::V83),
    ("PGSQL_PIPELINE_SYNC", Release::V83),
    ("PKCS7_NOOLDMIMETYPE", Release::V83),
];

static LENGTH_20: [(&str, Release); 22] = [
    ("FILTER_VALIDATE_BOOL", Release::V80),
    ("OPENSSL_CMS_DETACHED", Release::V80),
    ("OPENSSL_CMS_NOINTERN", Release::V80),
    ("OPENSSL_CMS_NOVERIFY", Release::V80),
    ("OPENSSL_ENCODING_DER", Release::V80),
    ("OPENSSL_ENCODING_PEM", Release::V80),
    ("CURLOPT_SSLCERT_BLOB", Release::V81),
    ("POSIX_RLIMIT_KQUEUES", Release::V81),
    ("CURLINFO_PROXY_ERROR", Release::V82),
    ("CURLINFO_RETRY_AFTER", Release::V82),
    ("CURLOPT_SASL_AUTHZID", Release::V82),
    ("CURLPX_GSSAPI_PERMSG", Release::V82),
    ("CURLPX_IDENTD_DIFFER", Release::V82),
    ("CURLPX_LONG_HOSTNAME", Release::V82),
    ("CURLPX_USER_REJECTED", Release::V82),
    ("CURLSSLOPT_NATIVE_CA", Release::V82),
    ("CURL_VERSION_UNICODE", Release::V82),
    ("DBA_LMDB_USE_SUB_DIR", Release::V82),
    ("DISP_E_PARAMNOTFOUND", Release::V82),
    ("CURLKHMATCH_MISMATCH", Release::V83),
    ("CURLOPT_MIME_OPTIONS", Release::V83),
    ("POSIX_PC_SYMLINK_MAX", Release::V83),
];

static LENGTH_21: [(&str, Release); 7] = [
    ("CURLFTPMETHOD_DEFAULT", Release::V82),
    ("CURLHSTS_READONLYFILE", Release::V82),
    ("CURLOPT_SSL_EC_CURVES", Release::V82),
    ("CURLPX_REQUEST_FAILED", Release::V82),
    ("CURLOPT_PROTOCOLS_STR", Release::V83),
    ("IP_PMTUDISC_INTERFACE", Release::V83),
    ("PGSQL_ERRORS_SQLSTATE", Release::V83),
];

static LENGTH_22: [(&str, Release); 6] = [
    ("OPENSSL_ENCODING_SMIME", Release::V80),
    ("T_NAME_FULLY_QUALIFIED", Release::V80),
    ("MYSQLI_REFRESH_REPLICA", Release::V81),
    ("LOCAL_CREDS_PERSISTENT", Release::V82),
    ("CURLMIMEOPT_FORMESCAPE", Release::V83),
    ("PGSQL_PIPELINE_ABORTED", Release::V83),
];

static LENGTH_23: [(&str, Release); 8] = [
    ("CURLOPT_ISSUERCERT_BLOB", Release::V81),
    ("CURLALTSVC_READONLYFILE", Release::V82),
    ("CURLPX_BAD_ADDRESS_TYPE", Release::V82),
    ("CURLPX_REPLY_UNASSIGNED", Release::V82),
    ("SKF_AD_VLAN_TAG_PRESENT", Release::V82),
    ("IP_BIND_ADDRESS_NO_PORT", Release::V83),
    ("OPENSSL_CMS_OLDMIMETYPE", Release::V83),
    ("POSIX_PC_ALLOC_SIZE_MIN", Release::V83),
];

static LENGTH_24: [(&str, Release); 11] = [
    ("CURLOPT_PROXY_ISSUERCERT", Release::V81),
    ("CURLOPT_MAXLIFETIME_CONN", Release::V82),
    ("CURLOPT_XFERINFOFUNCTION", Release::V82),
    ("CURLPX_GSSAPI_PROTECTION", Release::V82),
    ("CURLPX_REPLY_NOT_ALLOWED", Release::V82),
    ("CURLPX_REPLY_TTL_EXPIRED", Release::V82),
    ("FILTER_FLAG_GLOBAL_RANGE", Release::V82),
    ("CURLOPT_CA_CACHE_TIMEOUT", Release::V83),
    ("PGSQL_SHOW_CONTEXT_NEVER", Release::V83),
    ("PGSQL_TRACE_REGRESS_MODE", Release::V83),
    ("SO_ATTACH_REUSEPORT_CBPF", Release::V83),
];

static LENGTH_25: [(&str, Release); 9] = [
    ("CURLOPT_PROXY_SSLKEY_BLOB", Release::V81),
    ("CURLOPT_MAXFILESIZE_LARGE", Release::V82),
    ("CURLOPT_PROXY_CAINFO_BLOB", Release::V82),
    ("CURLOPT_UPLOAD_BUFFERSIZE", Release::V82),
    ("PGSQL_SHOW_CONTEXT_ALWAYS", Release::V83),
    ("PGSQL_SHOW_CONTEXT_ERRORS", Release::V83),
    ("POSIX_PC_CHOWN_RESTRICTED", Release::V83),
    ("POSIX_SC_NPROCESSORS_CONF", Release::V83),
    ("POSIX_SC_NPROCESSORS_ONLN", Release::V83),
];

static LENGTH_26: [(&str, Release); 4] = [
    ("T_NULLSAFE_OBJECT_OPERATOR", Release::V80),
    ("CURLOPT_PROXY_SSLCERT_BLOB", Release::V81),
    ("CURLOPT_UPKEEP_INTERVAL_MS", Release::V82),
    ("CURLSSLOPT_NO_PARTIALCHAIN", Release::V82),
];

static LENGTH_27: [(&str, Release); 3] = [
    ("CURLSSLOPT_AUTO_CLIENT_CERT", Release::V82),
    ("CURLOPT_REDIR_PROTOCOLS_STR", Release::V83),
    ("CURLOPT_SSH_HOSTKEYFUNCTION", Release::V83),
];

static LENGTH_29: [(&str, Release); 4] = [
    ("CURLOPT_PROXY_ISSUERCERT_BLOB", Release::V81),
    ("CURLOPT_MAIL_RCPT_ALLLOWFAILS", Release::V82),
    ("CURLPX_REPLY_HOST_UNREACHABLE", Release::V82),
    ("CURLSSLOPT_REVOKE_BEST_EFFORT", Release::V82),
];

static LENGTH_31: [(&str, Release); 3] = [
    ("CURLMOPT_MAX_CONCURRENT_STREAMS", Release::V82),
    ("CURLPX_REPLY_CONNECTION_REFUSED", Release::V82),
    ("PGSQL_TRACE_SUPPRESS_TIMESTAMPS", Release::V83),
];

static LENGTH_32: [(&str, Release); 1] = [("CURLPX_REPLY_NETWORK_UNREACHABLE", Release::V82)];

static LENGTH_34: [(&str, Release); 1] = [("CURLPX_REPLY_COMMAND_NOT_SUPPORTED", Release::V82)];

static LENGTH_35: [(&str, Release); 1] = [("CURLPX_REPLY_GENERAL_SERVER_FAILURE", Release::V82)];

static LENGTH_37: [(&str, Release); 2] = [
    ("SODIUM_CRYPTO_CORE_RISTRETTO255_BYTES", Release::V81),
    ("T_AMPERSAND_FOLLOWED_BY_VAR_OR_VARARG", Release::V81),
];

static LENGTH_39: [(&str, Release); 2] = [
    ("SODIUM_CRYPTO_STREAM_XCHACHA20_KEYBYTES", Release::V81),
    ("CURLPX_REPLY_ADDRESS_TYPE_NOT_SUPPORTED", Release::V82),
];

static LENGTH_41: [(&str, Release); 3] = [
    ("SODIUM_CRYPTO_CORE_RISTRETTO255_HASHBYTES", Release::V81),
    ("SODIUM_CRYPTO_STREAM_XCHACHA20_NONCEBYTES", Release::V81),
    ("T_AMPERSAND_NOT_FOLLOWED_BY_VAR_OR_VARARG", Release::V81),
];

static LENGTH_43: [(&str, Release); 2] = [
    ("SODIUM_CRYPTO_CORE_RISTRETTO255_SCALARBYTES", Release::V81),
    ("SODIUM_CRYPTO_SCALARMULT_RISTRETTO255_BYTES", Release::V81),
];

static LENGTH_49: [(&str, Release); 1] = [(
    "SODIUM_CRYPTO_SCALARMULT_RISTRETTO255_SCALARBYTES",
    Release::V81,
)];

static LENGTH_53: [(&str, Release); 1] = [(
    "SODIUM_CRYPTO_CORE_RISTRETTO255_NONREDUCEDSCALARBYTES",
    Release::V81,
)];

// The rows whose names have a length.
#[tactic(auto, unfolding(crate::specs::Newer::newer_constants))]
fn rows_of_length(length: usize) -> &'static [(&'static str, Release)]
    ensures { rows_of result.now ≡ of_length length newer_constants }
{
    match length {
        6 => &LENGTH_6,
        7 => &LENGTH_7,
        8 => &LENGTH_8,
        9 => &LENGTH_9,
        10 => &LENGTH_10,
        11 => &LENGTH_11,
        12 => &LENGTH_12,
        13 => &LENGTH_13,
        14 => &LENGTH_14,
        15 => &LENGTH_15,
        16 => &LENGTH_16,
        17 => &LENGTH_17,
        18 => &LENGTH_18,
        19 => &LENGTH_19,
        20 => &LENGTH_20,
        21 => &LENGTH_21,
        22 => &LENGTH_22,
        23 => &LENGTH_23,
        24 => &LENGTH_24,
        25 => &LENGTH_25,
        26 => &LENGTH_26,
        27 => &LENGTH_27,
        29 => &LENGTH_29,
        31 => &LENGTH_31,
        32 => &LENGTH_32,
        34 => &LENGTH_34,
        35 => &LENGTH_35,
        37 => &LENGTH_37,
        39 => &LENGTH_39,
        41 => &LENGTH_41,
        43 => &LENGTH_43,
        49 => &LENGTH_49,
        53 => &LENGTH_53,
        _ => &[],
    }
}

/// The release that first declares a constant of this name itself, or `None`. With case. (UPGRADING 8.0 to 8.3,
/// "New Global Constants".)
#[tactic(auto, using(crate::proofs::LengthLemmas::found_exactly_in_length))]
pub fn newer_constant(name: &[u8]) -> Option<Release>
    ensures { result ≡ found_exactly newer_constants name.now }
{
    find_exact_row(rows_of_length(name.len()), name)
}
