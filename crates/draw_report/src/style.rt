//! The style of all pictures, and the patterns and arrowheads that it names.

/// How a picture looks, on a light or a dark screen and on paper. No two values differ by colour
/// alone.
pub const STYLE: &[u8] = b"\
text{font-family:ui-monospace,\"DejaVu Sans Mono\",Consolas,monospace;font-size:115px;\
fill:#111}\n\
.bg{fill:#fff}.e{text-anchor:end}.m{text-anchor:middle}.q{font-size:95px;fill:#444}\
.h{font-size:140px;font-weight:bold}\n\
.g{stroke:#c9c9c9;stroke-width:5}.u{stroke:#8a8a8a;stroke-width:6}.p{stroke:#000;\
stroke-width:14}\n\
path{fill:none;stroke:#111;stroke-width:13;stroke-linecap:round;stroke-linejoin:round}\n\
.vC{fill:url(#hC)}.vR{fill:url(#hR)}.vF{fill:url(#hF)}.vU{fill:url(#hU)}\n\
.hp{stroke-width:7;stroke:#333}.hb{fill:#fff}.hu{fill:#bbb}.hd{fill:#555;stroke:none}\n\
.sm{fill:#cfdcf3;stroke:none}.late{stroke:#35507f;stroke-width:9;stroke-dasharray:26 20}\n\
.win{fill:#ffdf7e;fill-opacity:.6;stroke:#7a5200;stroke-width:8;stroke-dasharray:40 20}\n\
.bad{fill:#c00;fill-opacity:.3;stroke:#c00;stroke-width:18}.edge{stroke:#7a5200;\
stroke-width:12;stroke-dasharray:50 18 10 18}\n\
.dim{stroke:#7a5200;stroke-width:8}.has{stroke:#c00;stroke-width:14}.ar0{stroke:#0a5a3c;\
stroke-width:11;marker-end:url(#a1)}.ar1{stroke:#7a5200;stroke-width:11;marker-end:url(#a2);\
stroke-dasharray:45 22}\n\
.st0{stroke:#0a5a3c;stroke-width:26}.st1{stroke:#7a5200;stroke-width:26}\
.mk1 path{fill:#0a5a3c;stroke:none}.mk2 path{fill:#7a5200;stroke:none}\n\
.k{font-size:100px;paint-order:stroke;stroke:#fff;stroke-width:30px;stroke-linejoin:round}\n\
.r{fill:#c00;font-weight:bold}a text{text-decoration:underline}\n\
@media screen and (prefers-color-scheme:dark){text{fill:#eee}.bg{fill:#15171a}.q{fill:#bbb}\
.g{stroke:#3a3d42}.u{stroke:#6a6d72}.p{stroke:#ccc}\n\
path{stroke:#eee}.hp{stroke:#aaa}.hb{fill:#15171a}.hu{fill:#555}.hd{fill:#ccc}\
.sm{fill:#2c3f66}.late{stroke:#a9c4ff}\n\
.win{fill:#4d3d00;stroke:#ffd35c}.bad{fill:#ff6a6a;stroke:#ff6a6a}\
.edge,.dim,.ar1,.st1{stroke:#ffd35c}.has{stroke:#ff6a6a}.ar0,.st0{stroke:#6fe0b0}\n\
.mk1 path{fill:#6fe0b0}.mk2 path{fill:#ffd35c}.k{stroke:#15171a}.r{fill:#ff8a8a}}\n";

/// The hatches of values, and the heads of arrows.
pub const DEFS: &[u8] = b"\
<defs><pattern id=\"hC\" width=\"64\" height=\"64\" patternUnits=\"userSpaceOnUse\">\
<rect class=\"hb\" width=\"64\" height=\"64\"/>\
<path class=\"hp\" d=\"M0 0l64 64M64 0l-64 64\"/></pattern>\
<pattern id=\"hR\" width=\"64\" height=\"64\" patternUnits=\"userSpaceOnUse\">\
<path class=\"hp\" d=\"M-8 72l80 -80\"/></pattern>\
<pattern id=\"hF\" width=\"64\" height=\"64\" patternUnits=\"userSpaceOnUse\">\
<path class=\"hp\" d=\"M-8 -8l80 80\"/></pattern>\
<pattern id=\"hU\" width=\"90\" height=\"80\" patternUnits=\"userSpaceOnUse\">\
<rect class=\"hu\" width=\"90\" height=\"80\"/>\
<circle class=\"hd\" cx=\"25\" cy=\"22\" r=\"11\"/>\
<circle class=\"hd\" cx=\"70\" cy=\"62\" r=\"11\"/></pattern>\
<marker id=\"a1\" class=\"mk1\" viewBox=\"0 0 10 10\" refX=\"9\" refY=\"5\" markerWidth=\"90\" \
markerHeight=\"90\" markerUnits=\"userSpaceOnUse\" orient=\"auto\">\
<path d=\"M0 1l9 4l-9 4z\"/></marker>\
<marker id=\"a2\" class=\"mk2\" viewBox=\"0 0 10 10\" refX=\"9\" refY=\"5\" markerWidth=\"90\" \
markerHeight=\"90\" markerUnits=\"userSpaceOnUse\" orient=\"auto\">\
<path d=\"M0 1l9 4l-9 4z\"/></marker></defs>";

/// How a page looks beside its pictures.
pub const PAGE_STYLE: &[u8] = b"body{margin:16px;background:#fff;color:#111}\
pre,h1{font-family:ui-monospace,Consolas,monospace}\
a{color:inherit}text a{text-decoration:underline}[class=r]{font-size:95px}\
svg{overflow:visible}section{break-inside:avoid}\
@media screen and (prefers-color-scheme:dark){body{background:#15171a;color:#eee}}";
