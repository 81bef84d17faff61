//! Finds the page of a fault.

ghost use Rattle.std.specs.Prelude.{IfNone, IfOk, IfSome, map};
ghost use Rattle.std.specs.String.{string_bytes};
ghost use Rattle.text_commands.specs.FaultPages.{HaveNoCode, IsLastOf, IsPageOf};
ghost use Rattle.text_commands.specs.declared.fault_codes.FaultCode.{FaultCode};

use crate::fault_codes::{FaultCode, code_of};
use crate::{query_pages, schema_pages, table_pages, text_pages, validity_pages};
use std::alloc::{AllocError, Global};

/// The page of a fault: what its lines mean, an example of each, and what to do. The words contain its code, in any
/// ASCII case; the last of several codes counts. None if they contain no code. It fails only if memory runs out.
pub fn page_of(alloc: Global, words: &[String]) -> Result<Option<&'static str>, AllocError>
    ensures page { IfOk result (λ shown. IfSome shown
        (λ page. (found : FaultCode) × IsLastOf (map string_bytes words.now) found × IsPageOf found page.now)) }
    ensures none { IfOk result (λ shown. IfNone shown (HaveNoCode (map string_bytes words.now))) }
{
    match code_of(alloc, words)? {
        Some(found) => Ok(Some(page(found))),
        None => Ok(None),
    }
}

/// The page of a code.
fn page(code: FaultCode) -> &'static str
    ensures { IsPageOf code result.now }
{
    match code {
        FaultCode::W1 => page_with(FaultCode::W1, text_pages::W1),
        FaultCode::W2 => page_with(FaultCode::W2, text_pages::W2),
        FaultCode::W3 => page_with(FaultCode::W3, text_pages::W3),
        FaultCode::W4 => page_with(FaultCode::W4, text_pages::W4),
        FaultCode::V1 => page_with(FaultCode::V1, validity_pages::V1),
        FaultCode::V2 => page_with(FaultCode::V2, validity_pages::V2),
        FaultCode::V3 => page_with(FaultCode::V3, validity_pages::V3),
        FaultCode::V4 => page_with(FaultCode::V4, validity_pages::V4),
        FaultCode::V5 => page_with(FaultCode::V5, validity_pages::V5),
        FaultCode::V6 => page_with(FaultCode::V6, validity_pages::V6),
        FaultCode::V7 => page_with(FaultCode::V7, validity_pages::V7),
        FaultCode::V8 => page_with(FaultCode::V8, validity_pages::V8),
        FaultCode::S1 => page_with(FaultCode::S1, schema_pages::S1),
        FaultCode::S2 => page_with(FaultCode::S2, schema_pages::S2),
        FaultCode::S3 => page_with(FaultCode::S3, schema_pages::S3),
        FaultCode::S4 => page_with(FaultCode::S4, schema_pages::S4),
        FaultCode::S5 => page_with(FaultCode::S5, schema_pages::S5),
        FaultCode::S6 => page_with(FaultCode::S6, schema_pages::S6),
        FaultCode::L1 => page_with(FaultCode::L1, table_pages::L1),
        FaultCode::L2 => page_with(FaultCode::L2, table_pages::L2),
        FaultCode::L3 => page_with(FaultCode::L3, table_pages::L3),
        FaultCode::L4 => page_with(FaultCode::L4, table_pages::L4),
        FaultCode::L5 => page_with(FaultCode::L5, table_pages::L5),
        FaultCode::L6 => page_with(FaultCode::L6, table_pages::L6),
        FaultCode::L7 => page_with(FaultCode::L7, table_pages::L7),
        FaultCode::L8 => page_with(FaultCode::L8, table_pages::L8),
        FaultCode::L9 => page_with(FaultCode::L9, table_pages::L9),
        FaultCode::L10 => page_with(FaultCode::L10, table_pages::L10),
        FaultCode::L11 => page_with(FaultCode::L11, table_pages::L11),
        FaultCode::Q1 => page_with(FaultCode::Q1, query_pages::Q1),
        FaultCode::Q2 => page_with(FaultCode::Q2, query_pages::Q2),
        FaultCode::Q3 => page_with(FaultCode::Q3, query_pages::Q3),
        FaultCode::Q4 => page_with(FaultCode::Q4, query_pages::Q4),
        FaultCode::Q5 => page_with(FaultCode::Q5, query_pages::Q5),
        FaultCode::Q6 => page_with(FaultCode::Q6, query_pages::Q6),
        FaultCode::Q7 => page_with(FaultCode::Q7, query_pages::Q7),
        FaultCode::Q8 => page_with(FaultCode::Q8, query_pages::Q8),
        FaultCode::Q9 => page_with(FaultCode::Q9, query_pages::Q9),
        FaultCode::Q10 => page_with(FaultCode::Q10, query_pages::Q10),
        FaultCode::Q11 => page_with(FaultCode::Q11, query_pages::Q11),
        FaultCode::Q12 => page_with(FaultCode::Q12, query_pages::Q12),
    }
}

/// Returns a page that begins with this code.
fn page_with(code: FaultCode, page: &'static str) -> &'static str
    requires { IsPageOf code page.now }
    ensures { IsPageOf code result.now }
{
    page
}
