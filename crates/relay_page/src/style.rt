//! The page's style, for phones and wide screens, light and dark.

/// The page's start, up to its title.
pub(crate) const BEGINNING: &[u8] =
    b"<!DOCTYPE html>\n<html lang=\"en\">\n<head>\n<meta charset=\"utf-8\">\n\
<meta name=\"viewport\" content=\"width=device-width, initial-scale=1\">\n\
<meta name=\"color-scheme\" content=\"light dark\">\n<meta http-equiv=\"refresh\" content=\"60\">\n<title>relayd ";

/// What follows the title, up to the page's heading.
pub(crate) const STYLE: &[u8] = b"</title>\n<style>\n\
:root{--page:#f6f7f9;--card:#fff;--text:#1b2430;--soft:#5c6875;--line:#dde2e8;--came:#2f6fde;--went:#1f9d61}\n\
@media(prefers-color-scheme:dark){:root{--page:#12161c;--card:#1b222b;--text:#e6ebf1;--soft:#98a5b3;\
--line:#2f3a46;--came:#6ea2ff;--went:#4fcb8d}}\n\
*{box-sizing:border-box}\n\
body{margin:0;background:var(--page);color:var(--text);font:16px/1.45 system-ui,sans-serif}\n\
main{max-width:66rem;margin:0 auto;padding:1rem}\n\
h1{font-size:1.35rem;margin:.25rem 0;overflow-wrap:anywhere}\n\
h2{font-size:1.05rem;margin:0 0 .6rem}\n\
p{margin:.25rem 0 1rem;color:var(--soft)}\n\
section p:last-child{margin-bottom:0}\n\
.when span{display:inline-block;white-space:nowrap;margin-right:1.2rem}\n\
section{background:var(--card);border:1px solid var(--line);border-radius:.6rem;padding:1rem;margin:0 0 1rem}\n\
dl{display:grid;grid-template-columns:repeat(auto-fit,minmax(9rem,1fr));gap:.75rem 1rem;margin:0}\n\
dt{color:var(--soft);font-size:.85rem}\n\
dd{margin:0;font-size:1.3rem;font-variant-numeric:tabular-nums}\n\
table{width:100%;border-collapse:collapse;font-variant-numeric:tabular-nums}\n\
th,td{padding:.4rem .6rem;text-align:right;border-top:1px solid var(--line)}\n\
thead th{border-top:0;color:var(--soft);font-size:.85rem;font-weight:400}\n\
th:first-child,td.l,th.l{text-align:left}\n\
th:first-child{padding-left:0}th:last-child,td:last-child{padding-right:0}\n\
tbody th{font-weight:600;overflow-wrap:anywhere}\n\
.hops th:first-child{min-width:10rem}.hops td:last-child{min-width:12rem}\n\
td{white-space:nowrap}\n\
td.l{overflow-wrap:anywhere;white-space:normal}\n\
small{color:var(--soft);white-space:nowrap}\n\
svg{display:block;width:100%;height:9rem;border-bottom:1px solid var(--line)}\n\
.came{fill:var(--came);fill-opacity:.18;stroke:var(--came)}\n\
.went{fill:none;stroke:var(--went)}\n\
polyline{stroke-width:2;vector-effect:non-scaling-stroke;stroke-linejoin:round}\n\
.axis{display:flex;justify-content:space-between;color:var(--soft);font-size:.8rem;margin:.3rem 0 0}\n\
.key::before{content:\"\";display:inline-block;width:.75rem;height:.75rem;border-radius:.2rem;\
background:var(--c);margin:0 .4rem 0 0}\n\
.key{display:inline-block;white-space:nowrap;margin-right:1.2rem}\n\
a{color:var(--came)}\n\
@media(max-width:52rem){thead{display:none}tr{display:block;padding:.5rem 0;border-top:1px solid var(--line)}\
tbody tr:first-child{border-top:0;padding-top:0}tbody th,td,td.l{display:flex;justify-content:space-between;gap:1rem;\
padding:.1rem 0;border:0;text-align:right}td::before{content:attr(data-name);color:var(--soft);flex:none;\
white-space:nowrap}.mail tbody th::before{content:\"Message\";color:var(--soft);font-weight:400}\
tbody tr:last-child{padding-bottom:0}}\n\
</style>\n</head>\n<body>\n<main>\n<h1>";
