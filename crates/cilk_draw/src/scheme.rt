//! The colours and letters of a picture: those of a light screen and of paper, and on a dark screen others.

/// What stands in front of all elements of a picture. Instances differ in lightness too, and what races has a thicker edge and a mark.
pub(crate) const SCHEME: &str = "\
<style>
text{font:11px 'DejaVu Sans Mono',Menlo,Consolas,monospace;fill:#1a1a1a}
.title{font-size:18px;font-weight:bold}
.name{font-size:13px;text-anchor:end}
.mid{text-anchor:middle}
.faint{fill:#555555}
.paper{fill:#ffffff}
.lane{fill:#f4f4f4;stroke:#c8c8c8}
.box{fill:#ffffff;stroke:#444444}
.fold{fill:#dddddd;stroke:#444444}
.move{fill:#ffffff;stroke:#444444;stroke-dasharray:4 2}
.value{fill:#ffffff;stroke:#777777}
.bar{stroke:#444444}
.h0{fill:#f7e8a4}.h1{fill:#a9d8f5}.h2{fill:#f3b77c}.h3{fill:#9fdcc4}.h4{fill:#d9c2ea}.h5{fill:#cfcfcf}.h6{fill:#f2b3c6}
.arrow{stroke:#222222;stroke-width:2;stroke-dasharray:5 3;fill:none}
.tip{fill:#222222}
.clash,.race{stroke:#b00020;stroke-width:3}
.race{fill:none;stroke-width:2}
.alarm{fill:#b00020;font-weight:bold}
@media screen and (prefers-color-scheme:dark){
text{fill:#f0f0f0}
.faint{fill:#b0b0b0}
.paper{fill:#161616}
.lane{fill:#232323;stroke:#4a4a4a}
.box,.move{fill:#161616;stroke:#c0c0c0}
.fold{fill:#444444;stroke:#c0c0c0}
.value{fill:#161616;stroke:#8a8a8a}
.bar{stroke:#c0c0c0}
.h0{fill:#6b5c00}.h1{fill:#0b4f75}.h2{fill:#7a3f00}.h3{fill:#06543c}.h4{fill:#563a70}.h5{fill:#505050}.h6{fill:#70203a}
.arrow{stroke:#e0e0e0}
.tip{fill:#e0e0e0}
.clash,.race{stroke:#ff7b7b}
.alarm{fill:#ff7b7b}
}
</style>
<defs><marker id=\"tip\" viewBox=\"0 0 8 8\" refX=\"7\" refY=\"4\" markerUnits=\"userSpaceOnUse\" markerWidth=\"10\" markerHeight=\"10\" orient=\"auto\">\
<path class=\"tip\" d=\"M0,0 L8,4 L0,8 z\"/></marker></defs>
";
