//! Replies of an intake.

/// The reply to the first registered report, 110 bytes.
pub const REGISTERED: &str =
    "HTTP/1.1 201 Created\r\nContent-Type: application/json\r\nContent-Length: 34\r\n\r\n{\"number\":1,\"status\":\"registered\"}";

/// The reply to the first registered report if the connection closes, 129 bytes.
pub const REGISTERED_CLOSED: &str =
    "HTTP/1.1 201 Created\r\nContent-Type: application/json\r\nContent-Length: 34\r\nConnection: close\r\n\r\n{\"number\":1,\"status\":\"registered\"}";

/// The reply to the second registered report.
pub const REGISTERED_SECOND: &str =
    "HTTP/1.1 201 Created\r\nContent-Type: application/json\r\nContent-Length: 34\r\n\r\n{\"number\":2,\"status\":\"registered\"}";

/// The reply to a body that is no JSON text.
pub const NOT_JSON: &str =
    "HTTP/1.1 400 Bad Request\r\nContent-Type: application/problem+json\r\nContent-Length: 120\r\n\r\n{\"findings\":[{\"code\":\"not-json\",\"place\":\"\"}],\"reason\":\"refused\",\"status\":400,\"title\":\"Bad Request\",\"type\":\"about:blank\"}";

/// The reply to a head that is malformed.
pub const MALFORMED: &str =
    "HTTP/1.1 400 Bad Request\r\nContent-Type: application/problem+json\r\nContent-Length: 78\r\nConnection: close\r\n\r\n{\"reason\":\"malformed\",\"status\":400,\"title\":\"Bad Request\",\"type\":\"about:blank\"}";

/// The reply to a request that cannot be decided now.
pub const UNAVAILABLE: &str =
    "HTTP/1.1 503 Service Unavailable\r\nContent-Type: application/problem+json\r\nContent-Length: 88\r\n\r\n{\"reason\":\"unavailable\",\"status\":503,\"title\":\"Service Unavailable\",\"type\":\"about:blank\"}";

/// The reply that lists no filing.
pub const NO_FILINGS: &str =
    "HTTP/1.1 200 OK\r\nContent-Type: application/json\r\nContent-Length: 14\r\n\r\n{\"filings\":[]}";

/// The reply that lists the report of one fact, 107 bytes.
pub const ONE_FILING: &str =
    "HTTP/1.1 200 OK\r\nContent-Type: application/json\r\nContent-Length: 36\r\n\r\n{\"filings\":[{\"facts\":1,\"number\":1}]}";

/// The interim response, 25 bytes.
pub const CONTINUE: &str = "HTTP/1.1 100 Continue\r\n\r\n";

/// The reply to a key that was used for another body.
pub const KEY_REUSED: &str =
    "HTTP/1.1 422 Unprocessable Content\r\nContent-Type: application/problem+json\r\nContent-Length: 89\r\n\r\n{\"reason\":\"key-reused\",\"status\":422,\"title\":\"Unprocessable Content\",\"type\":\"about:blank\"}";

/// The reply to a report whose filing cannot be replaced.
pub const NOT_REPLACEABLE: &str =
    "HTTP/1.1 422 Unprocessable Content\r\nContent-Type: application/problem+json\r\nContent-Length: 137\r\n\r\n{\"findings\":[{\"code\":\"not-replaceable\",\"place\":\"\"}],\"reason\":\"refused\",\"status\":422,\"title\":\"Unprocessable Content\",\"type\":\"about:blank\"}";

/// The reply to a report without a key.
pub const KEY_MISSING: &str =
    "HTTP/1.1 400 Bad Request\r\nContent-Type: application/problem+json\r\nContent-Length: 80\r\n\r\n{\"reason\":\"key-missing\",\"status\":400,\"title\":\"Bad Request\",\"type\":\"about:blank\"}";

/// The reply to a key that is no String.
pub const KEY_BAD: &str =
    "HTTP/1.1 400 Bad Request\r\nContent-Type: application/problem+json\r\nContent-Length: 76\r\n\r\n{\"reason\":\"key-bad\",\"status\":400,\"title\":\"Bad Request\",\"type\":\"about:blank\"}";

/// The reply to a path that names no filings.
pub const NO_PATH: &str =
    "HTTP/1.1 404 Not Found\r\nContent-Type: application/problem+json\r\nContent-Length: 74\r\n\r\n{\"reason\":\"no-path\",\"status\":404,\"title\":\"Not Found\",\"type\":\"about:blank\"}";

/// The reply to another method.
pub const NO_METHOD: &str =
    "HTTP/1.1 405 Method Not Allowed\r\nContent-Type: application/problem+json\r\nContent-Length: 85\r\nAllow: GET, POST\r\n\r\n{\"reason\":\"no-method\",\"status\":405,\"title\":\"Method Not Allowed\",\"type\":\"about:blank\"}";

/// The reply to a HEAD, which has no content.
pub const NO_METHOD_OF_HEAD: &str =
    "HTTP/1.1 405 Method Not Allowed\r\nContent-Type: application/problem+json\r\nAllow: GET, POST\r\n\r\n";

/// The reply to a body that is too long.
pub const TOO_LARGE: &str =
    "HTTP/1.1 413 Content Too Large\r\nContent-Type: application/problem+json\r\nContent-Length: 84\r\nConnection: close\r\n\r\n{\"reason\":\"too-large\",\"status\":413,\"title\":\"Content Too Large\",\"type\":\"about:blank\"}";

/// The reply to a report in a content coding.
pub const CONTENT_CODING: &str =
    "HTTP/1.1 415 Unsupported Media Type\r\nContent-Type: application/problem+json\r\nContent-Length: 94\r\n\r\n{\"reason\":\"content-coding\",\"status\":415,\"title\":\"Unsupported Media Type\",\"type\":\"about:blank\"}";

/// The reply to a head that is too long.
pub const HEAD_TOO_LARGE: &str =
    "HTTP/1.1 431 Request Header Fields Too Large\r\nContent-Type: application/problem+json\r\nContent-Length: 103\r\nConnection: close\r\n\r\n{\"reason\":\"head-too-large\",\"status\":431,\"title\":\"Request Header Fields Too Large\",\"type\":\"about:blank\"}";

/// The reply to a transfer coding.
pub const CODING: &str =
    "HTTP/1.1 501 Not Implemented\r\nContent-Type: application/problem+json\r\nContent-Length: 79\r\nConnection: close\r\n\r\n{\"reason\":\"coding\",\"status\":501,\"title\":\"Not Implemented\",\"type\":\"about:blank\"}";
