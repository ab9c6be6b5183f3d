//! The bytes that several tests share: requests and replies.

/// The head of the request that files the report of one fact under the key `k-1`: 93 bytes.
pub const HEAD: &str =
    "POST /filings/ACME HTTP/1.1\r\nHost: localhost\r\nIdempotency-Key: \"k-1\"\r\nContent-Length: 393\r\n\r\n";

/// The head of the request that files the report of one fact under the key `k-2`.
pub const SECOND_HEAD: &str =
    "POST /filings/ACME HTTP/1.1\r\nHost: localhost\r\nIdempotency-Key: \"k-2\"\r\nContent-Length: 393\r\n\r\n";

/// The request that files the smallest report under the key `k-1`.
pub const SMALL: &str =
    "POST /filings/ACME HTTP/1.1\r\nHost: h\r\nIdempotency-Key: \"k-1\"\r\nContent-Length: 84\r\n\r\n{\"documentInfo\":{\"documentType\":\"https://xbrl.org/2021/xbrl-json\",\"taxonomy\":[\"t\"]}}";

/// The request that files the smallest report under the key `k-2`.
pub const SECOND_SMALL: &str =
    "POST /filings/ACME HTTP/1.1\r\nHost: h\r\nIdempotency-Key: \"k-2\"\r\nContent-Length: 84\r\n\r\n{\"documentInfo\":{\"documentType\":\"https://xbrl.org/2021/xbrl-json\",\"taxonomy\":[\"t\"]}}";

/// The request that lists the filings, 40 bytes.
pub const LIST: &str = "GET /filings/ACME HTTP/1.1\r\nHost: h\r\n\r\n";
